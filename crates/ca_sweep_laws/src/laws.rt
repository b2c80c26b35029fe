//! The law of the sections of sweeps.

ghost use Rattle.ca_sweep_laws.specs.Sections.{SectionsOfSweeps};

/// The section of an operation whose body is one sweep is complete exactly where its demand doesn't fail; it leaves the swept
/// array, in one step and those of the demand.
pub fn sections_of_sweeps()
    ensures { SectionsOfSweeps }
{}
