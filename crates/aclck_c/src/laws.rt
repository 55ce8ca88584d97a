//! What the exports promise about each other.
ghost use Rattle.aclck_c.specs.Laws.{FormsHaveNoUnknownDeny, NormalizedBytesTellApart, PartGrantsNoMore, RisingGroupsDecideAlike};

/// Two inputs for which `aclck_normalize` returned 0 got equal bytes if and only if their lists grant everybody the
/// same.
pub fn normalized_bytes_tell_apart()
    ensures { NormalizedBytesTellApart }
{}

/// If the groups of a requester rise in the order of their bytes, `aclck_decide_prepared` answers as `aclck_decide`
/// does for the list, whether the options say that they are in order or not.
pub fn rising_groups_decide_alike()
    ensures { RisingGroupsDecideAlike }
{}

/// The list that `aclck_read_part` writes grants nothing that the whole list of the value does not grant, whoever is
/// meant by the special identifiers that nobody knows; no value of which it is made has a DENY of such an identifier.
pub fn part_grants_no_more()
    ensures denies { FormsHaveNoUnknownDeny }
    ensures grants { PartGrantsNoMore }
{}
