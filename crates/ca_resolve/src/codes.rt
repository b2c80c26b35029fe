//! The numbers of the codes that the rules of names and types tell. Those of limits are
//! `FIRST_LIMIT` to `LAST_LIMIT`.

/// A class is defined a second time.
pub const CLASS_TWICE: u32 = 20;
/// A class that is named isn't defined.
pub const UNKNOWN_CLASS: u32 = 21;
/// A field or a method of a class is defined a second time.
pub const MEMBER_TWICE: u32 = 22;
/// A local is declared a second time in its block.
pub const LOCAL_TWICE: u32 = 23;
/// A name means nothing here.
pub const UNKNOWN_NAME: u32 = 24;
/// Types don't agree.
pub const TYPES_DISAGREE: u32 = 25;
/// A call has not as many arguments as its method has parameters.
pub const WRONG_COUNT: u32 = 26;
/// A target is no local and no field of the object.
pub const NO_TARGET: u32 = 27;
/// An operation is called as a value, or a value method as a statement.
pub const WRONG_CALL: u32 = 28;
/// A value method writes, creates, calls an operation or prints.
pub const VALUE_METHOD_ACTS: u32 = 29;
/// A `return` is missing, or stands outside of a value method.
pub const WRONG_RETURN: u32 = 30;
/// An array field has no index, or something else has one.
pub const WRONG_INDEX: u32 = 31;
/// `this` stands in `main`.
pub const THIS_IN_MAIN: u32 = 32;
/// An array has no item.
pub const EMPTY_ARRAY: u32 = 33;

/// The first code of a limit.
pub const FIRST_LIMIT: u32 = 50;
/// The program has too many classes.
pub const TOO_MANY_CLASSES: u32 = 50;
/// A class has too many fields.
pub const TOO_MANY_FIELDS: u32 = 51;
/// The program has too many operations.
pub const TOO_MANY_OPERATIONS: u32 = 52;
/// The program has too many value methods.
pub const TOO_MANY_FUNCTIONS: u32 = 53;
/// A method has too many parameters.
pub const TOO_MANY_PARAMETERS: u32 = 54;
/// A body has too many locals.
pub const TOO_MANY_LOCALS: u32 = 55;
/// An array has too many items.
pub const TOO_LONG_ARRAY: u32 = 56;
/// The program has too many `for` statements.
pub const TOO_MANY_LOOPS: u32 = 57;
/// The last code of a limit.
pub const LAST_LIMIT: u32 = 57;
