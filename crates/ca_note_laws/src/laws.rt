//! The laws of notes.

ghost use Rattle.ca_note_laws.specs.Handed.{ListsAreGood, NotesAside};
ghost use Rattle.ca_note_laws.specs.Listing.{ListsFirst};

/// Whatever a run of a typed program with sound marks hands off, an engine may run: its heap is typed, and its operations
/// are well typed and of a parallel extent. The machine that hands them off owes no more.
pub fn lists_are_good()
    ensures { ListsAreGood }
{}

/// Whoever hands notes off and takes the answers over runs what the serial run does, but for the notes.
pub fn notes_aside_the_run_is_serial()
    ensures { NotesAside }
{}

/// Whoever lists the calls of a marked loop before they run, and hands off what is listed, runs what the run with marks does.
pub fn loops_may_list_first()
    ensures { ListsFirst }
{}
