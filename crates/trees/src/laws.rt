// Laws of joining: theorems about the definitions in specs/, each on the contract of a function that does nothing else.
ghost use Rattle.trees.specs.Laws.{JoinedRight, OneSide, FilesFound, OneTree};
ghost use Rattle.trees.specs.RowPromises.{DiffersRight, EmptyRight, FindsRight, KeysOrdered, PutsRight, SameRight, StoredRight, TakesRight};
ghost use Rattle.trees.specs.StoredPromises.{RenamedRight, StoredBytes, StoredObjects};

// After joining there is at each path what the rule says; a clash is one from either side, and where there is none both sides come to the same.
pub fn joins_rightly()
    ensures { JoinedRight }
{}

// What only one side changed is as that side has it.
pub fn one_side_is_taken()
    ensures { OneSide }
{}

// What is found after a file is put or taken out, at its own path and at another.
pub fn files_are_found()
    ensures { FilesFound }
{}

// Two trees with the same files are one, and joining keeps trees by rising path.
pub fn same_files_same_tree()
    ensures { OneTree }
{}

// Keys are ordered as paths are, and a key gives its path back.
pub fn keys_are_ordered()
    ensures { KeysOrdered }
{}

// A row that says that it has no files is the empty tree.
pub fn empty_row_is_empty()
    ensures { EmptyRight }
{}

// What a row has at a path is what its tree has.
pub fn rows_find_rightly()
    ensures { FindsRight }
{}

// A file is put into a row as into its tree.
pub fn rows_put_rightly()
    ensures { PutsRight }
{}

// A file is taken out of a row as out of its tree.
pub fn rows_take_rightly()
    ensures { TakesRight }
{}

// Two rows are the same exactly if their trees are.
pub fn same_rows_same_tree()
    ensures { SameRight }
{}

// A row that was stored is spread again as it was.
pub fn stored_rows_come_back()
    ensures { StoredRight }
{}

// A stored row is an object of the tree's kind with the row's references.
pub fn stored_rows_are_objects()
    ensures { StoredObjects }
{}

// Other references in a stored row are the same references in what is spread.
pub fn renamed_rows_stand()
    ensures { RenamedRight }
{}

// A stored row takes few bytes for what its files weigh.
pub fn stored_rows_are_short()
    ensures { StoredBytes }
{}

// All differences of two rows are the marks of their trees.
pub fn differences_are_marks()
    ensures { DiffersRight }
{}
