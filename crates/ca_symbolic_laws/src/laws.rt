//! The law of symbolic meaning, in its parts.

ghost use Rattle.ca_symbolic_laws.specs.Laws.{ValuesAreMeant, StatementsAreMeant, StatesStayTyped, SectionsAreMeant, FieldsStayTyped, ConstantsAreKept, StartsAreMeant};

/// An expression gives what its term means, and takes what its demands take: a verdict that compares terms and demands
/// compares values and steps.
pub fn values_are_meant()
    ensures { ValuesAreMeant }
{}

/// Statements of a section leave what the state behind them means, and list and take what their demands do.
pub fn statements_are_meant()
    ensures { StatementsAreMeant }
{}

/// Behind a typed statement the terms mean values of the types of their fields and locals, so statements can be taken one
/// after the other.
pub fn states_stay_typed()
    ensures { StatesStayTyped }
{}

/// A section is complete exactly where no demand under a true guard fails and the steps suffice; it leaves the object, the
/// steps and the list that terms and demands tell. So a verdict on terms is one on sections.
pub fn sections_are_meant()
    ensures { SectionsAreMeant }
{}

/// Behind an operation the terms of the fields are typed, so that another operation may begin with them.
pub fn fields_stay_typed()
    ensures { FieldsStayTyped }
{}

/// An object that an operation leaves agrees with the heap where the one before it did, so that another operation may begin
/// with it.
pub fn constants_are_kept()
    ensures { ConstantsAreKept }
{}

/// The atoms with which the first of two operations begins mean the receiver's object.
pub fn starts_mean_the_object()
    ensures { StartsAreMeant }
{}
