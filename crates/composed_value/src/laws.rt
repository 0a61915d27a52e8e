//! What cells hold, as laws: each function does nothing and carries its law as a clause.
ghost use Rattle.composed_value.specs.Laws.{CellsHoldTheirPuts, CellsAreByMembers, CellsAreJoined, ValuesAreSingle, CellsAreSingle, JoinsAreSound, NextPutsAreSound, CountersAreSums, InsertsStayUnseen};

/// The cell of a list of puts of one kind, the join of their one-put cells, is what the whole list
/// says: its value is the plain value of the puts, its clock has for each session the greatest
/// number, its top is the greatest Lamport number and its needs are the greatest that any put has.
/// The list's members alone decide it, and the cell of two lists together is the join of their cells.
pub fn cells_hold_their_puts()
    ensures holds { CellsHoldTheirPuts }
    ensures members { CellsAreByMembers }
    ensures together { CellsAreJoined }
{}

/// There is one plain value of a list of puts, and one cell.
pub fn cells_are_single()
    ensures value { ValuesAreSingle }
    ensures cell { CellsAreSingle }
{}

/// A join of two sound cells is sound. A sound cell that counts n puts of a session on the key,
/// joined with the one-put cell of the session's put n + 1, is sound: here the accepted puts on the
/// key are of its kind, and those of each session are numbered 1, 2 and so on, each once.
pub fn sound_cells_stay_sound()
    ensures join { JoinsAreSound }
    ensures next { NextPutsAreSound }
{}

/// The counter of puts with different dots, of which gossip may repeat each as often as it will, has
/// the sum of all that they add less the sum of all that they take. An insert is in the set of the puts
/// exactly where no remove of its word among them had seen it.
pub fn counters_and_sets_say_their_puts()
    ensures sums { CountersAreSums }
    ensures inserts { InsertsStayUnseen }
{}
