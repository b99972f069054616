//! Sentinels whose files name different data nodes.

ghost use Rattle.process_laws.specs.Differing.{OwnListsAreARun};
ghost use Rattle.process_laws.specs.GroupStarts.{OwnListsAreAStart};
ghost use Rattle.process_laws.specs.OwnLists.{ListsAreKept, ListsHaveAUnion, NumbersFit};
ghost use Rattle.process_laws.specs.TwoLists.{ListsMayDiffer};

/// Moves that go each by a roster of its own are a run of the model, where those rosters differ from one in data nodes,
/// quorums and addresses of Sentinels alone, and it has all nodes and the least quorums: so the laws of the model hold
/// of them. A start by one of these rosters is one by that.
pub fn law_own_lists_are_a_run()
    ensures { OwnListsAreARun }
{}

/// Files that differ in data nodes, quorums and addresses of Sentinels alone are where the laws of processes begin:
/// with a roster that has all their lists and the least quorums, the data nodes of that, and in each Sentinel's file
/// what its own one of them holds.
pub fn law_own_lists_are_a_start()
    ensures { OwnListsAreAStart }
{}

/// Two processes whose lists differ meet all that the laws of processes ask: each names a replica that the other
/// doesn't. One is elected by the other's vote, and promotes its replica. The other hears that, and passes it over: it
/// tells clients the address before, of an earlier epoch. Then another process begins with a file that names the
/// replica, and takes it. What each put out, all that was elected and said, and what the files held stands word for
/// word in `specs/TwoLists.antt`.
pub fn law_lists_may_differ()
    ensures { ListsMayDiffer }
{}

/// A process takes no address that its own file doesn't list, whatever the others know: of each master it keeps, and
/// while no store was refused has stored, an address of its own list.
pub fn law_lists_are_kept()
    ensures { ListsAreKept }
{}

/// Rosters of Sentinels with the same run ids, and of masters with the same names, differ so from one that has all
/// their lists and the least quorums: so of lists, quorums and addresses of Sentinels nothing is asked.
pub fn law_lists_have_a_union()
    ensures { ListsHaveAUnion }
{}

/// A Sentinel's own numbers of data nodes are below the number of those of the roster that has all lists, though they
/// may stand for others there: no law looks at which.
pub fn law_numbers_fit()
    ensures { NumbersFit }
{}
