//! Laws of the format. The functions do nothing: their clauses are the laws.
ghost use Rattle.ide_journal.specs.Laws.{HoldsOneList, HoldsTheSame};

/// A file holds one list of records at most, with one version and one tag.
pub fn holds_one_list()
    ensures { HoldsOneList }
{}

/// Where two files hold the same records, the one holds what the other does.
pub fn holds_the_same()
    ensures { HoldsTheSame }
{}
