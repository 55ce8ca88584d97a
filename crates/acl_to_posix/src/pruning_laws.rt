//! What holds of the ACL of a shape whose names are taken out as long as nothing is lost.
ghost use Rattle.acl_to_posix.specs.PosixOfList.{GrantsDecidePosix};
ghost use Rattle.acl_to_posix.specs.PruningLaws.{BridgeAndBack, EndAgrees, EndIsMaximal, GrantsDecideTheEnd, GrantsGiveOneAcl, NamesByTableAreAll, PruningHasOneEnd, PruningKeepsEntries, PruningLosesNothing};

/// Along a pruning nothing is lost, and each entry that stays has the permissions that it had at the start.
pub fn pruning_keeps()
    ensures grants { PruningLosesNothing }
    ensures entries { PruningKeepsEntries }
{}

/// Where a pruning ends, the ACL is maximal: no sound ACL with entries for some of the users and groups with which the
/// pruning began, and for no others, grants more.
pub fn pruning_is_maximal()
    ensures { EndIsMaximal }
{}

/// Where a pruning ends that began with all names of the list, the ACL agrees with the list on read, write and execute
/// alone, if any POSIX ACL does.
pub fn pruning_is_exact()
    ensures agrees { EndAgrees }
    // The users and groups that the list names by the table are all names of the list.
    ensures names { NamesByTableAreAll }
{}

/// All prunings from one shape end in one shape, in whatever order names are taken out; if two lists grant the same,
/// their prunings end in one shape, and the ACLs of this shape answer alike.
pub fn pruning_has_one_end()
    ensures order { PruningHasOneEnd }
    ensures grants { GrantsDecideTheEnd }
{}

/// If two lists grant the same, and each pruning began with all names of its list, the two ACLs are the same, whatever
/// users and groups the lists name; so two lists for which `to_posix` returns an ACL, and which grant the same, have
/// one ACL.
pub fn grants_give_one_acl()
    ensures acls { GrantsGiveOneAcl }
    // So two lists for which `to_posix` returns an ACL and that grant the same have one ACL.
    ensures lists { GrantsDecidePosix }
{}

/// From the list of a POSIX ACL, a pruning that began with its users and groups leads back to an ACL that answers
/// alike.
pub fn pruning_leads_back()
    ensures { BridgeAndBack }
{}
