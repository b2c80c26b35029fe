//! What stands still while calls run on copies.

use crate::marks::FieldMark;
use ca_extent::Extent;
use ca_model::Heap;

/// The extent of a round, the frozen heap, and the marks of the fields that are written, behind one pointer: what is called out of
/// the loop that runs instructions wants few of its registers.
#[derive(Clone, Copy)]
pub struct Ground<'s> {
    pub extent: &'s Extent,
    pub frozen: &'s Heap,
    pub marks: &'s [FieldMark],
}
