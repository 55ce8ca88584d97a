//! Laws of the POSIX ACL of a list.
ghost use Rattle.std.specs.Prelude.{◌↔◌, List};
ghost use Rattle.acl_posix.specs.Entries.{Entries};
ghost use Rattle.acl_to_posix.specs.LostGrants.{IsExact, KeepsSingles};
ghost use Rattle.acl_to_posix.specs.NoGreatest.{HaveNoneAbove, all_but_the_user, denied_user, members_alone, members_read, others_write, two_groups, two_permissions, user_writes};
ghost use Rattle.acl_to_posix.specs.Pruning.{EntriesDecideLoss};
ghost use Rattle.acl_to_posix.specs.ToPosix.{IsBest, IsGreatest, IsSound, EntryShape};
ghost use Rattle.acl_nfs4.specs.Ace.{Ace};

/// The POSIX ACL of a shape grants no more than the list, and no ACL with entries for the same users and groups that
/// grants no more than the list grants more.
pub fn best_of_a_shape()
    ensures sound { (list : List Ace) (shape : EntryShape) (entries : Entries)
        → IsBest list shape entries → IsSound list entries }
    ensures greatest { (list : List Ace) (shape : EntryShape) (entries : Entries)
        → IsBest list shape entries → IsGreatest list shape entries }
{}

/// Some lists have no greatest POSIX ACL that grants no more than they do: each time, two ACLs grant no more than the
/// list, and no third one grants all that both grant.
pub fn no_greatest()
    // One permission, and an entry for a user.
    ensures users { HaveNoneAbove denied_user all_but_the_user members_alone }
    // Two permissions, and an entry for a user.
    ensures permissions { HaveNoneAbove two_permissions user_writes members_alone }
    // Two permissions, and groups alone.
    ensures groups { HaveNoneAbove two_groups members_read others_write }
{}

/// If a user or a group of a shape gets no entry, the ACL grants whatever it granted before, if and only if each of the
/// other GROUP_OBJ, GROUP and OTHER entries has what it had before and what the entry had that was taken out.
pub fn entries_decide_loss()
    ensures { EntriesDecideLoss }
{}

/// If a POSIX ACL grants no more than a list, both agree about read, write and execute, each alone, in every situation
/// if and only if the ACL grants each of these wherever the list does.
pub fn exact_if_nothing_is_lost()
    ensures { (list : List Ace) (entries : Entries) → IsSound list entries
        → KeepsSingles list entries ↔ IsExact list entries }
{}
