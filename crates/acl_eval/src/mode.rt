//! The mode of a list: what it grants the owner, the group and others.
ghost use Rattle.std.specs.Prelude.{◌≡◌, ◌∷◌, ◌&&◌, if◌then◌else◌, ℕ, List};
ghost use Rattle.acl_perm.specs.Bits.{has_bit};
ghost use Rattle.acl_perm.specs.Principal.{principal};
ghost use Rattle.acl_nfs4.specs.Ace.{Ace, ace};
ghost use Rattle.acl_nfs4.specs.Who.{principal_of};
ghost use Rattle.acl_eval.specs.ListMode.{mode_of_list, perm_of};
ghost use Rattle.acl_eval.specs.Permissions.{append_data, execute_right, read_data, write_data};
ghost use Rattle.acl_eval.specs.internal.Settled.{decides_for, settled_in};

use crate::each_right::GrantedSoFar;
use crate::permissions::{EXECUTE, READ, WRITE, WRITE_RIGHTS};
use acl_nfs4::{AceRef, Aces};
use acl_perm::{Mask, Mode, Perm, Principal};

/// Returns the file mode bits of a list (RFC 8881, section 6.3.2): for the owner what the ACEs of `OWNER@` and
/// `EVERYONE@` grant, for the group what those of `GROUP@` and `EVERYONE@` grant, and for others what those of
/// `EVERYONE@` grant. It reads the list once, and takes no memory.
///
/// ```rust
/// let list = parse_text(alloc, b"ALLOW - READ_DATA|EXECUTE EVERYONE@")?;
/// let mode = mode_of(list.aces());
/// assert_eq!(rt; mode.bits(), 0o555);
/// ```
pub fn mode_of(aces: Aces<'_>) -> Mode
    ensures { result.bits ≡ mode_of_list aces.entry }
{
    let mut owner = GrantedSoFar::new(Mask::ALL);
    let mut group = GrantedSoFar::new(Mask::ALL);
    let mut others = GrantedSoFar::new(Mask::ALL);
    for ace in aces {
        let whom = ace.principal();
        owner = FileClass::Owner.after(owner, &ace, whom);
        group = FileClass::Group.after(group, &ace, whom);
        others = FileClass::Others.after(others, &ace, whom);
    }
    Mode::from_parts(owner.perm(), group.perm(), others.perm())
}

// The users of one octal digit of a mode.
#[derive(Clone, Copy)]
enum FileClass {
    Owner,
    Group,
    Others,
}

impl FileClass {
    // The state after one more ACE, which names this principal. It decides only what no earlier ACE has decided.
    #[tactic(auto)]
    fn after(self, so_far: GrantedSoFar, item: &AceRef<'_>, whom: Principal<'_>) -> GrantedSoFar
        requires { principal whom ≡ principal_of (ace item.now) }
        ensures { (list : List Ace) (bit : ℕ)
            → settled_in self result list bit ≡ settled_in self so_far (ace item.now ∷ list) bit }
    {
        if !self.is_decided_by(whom) || !item.takes_part() {
            return so_far;
        }
        so_far.decide(item.kind, item.mask)
    }

    // Returns whether the ACEs of a principal decide for the class. Those of `EVERYONE@` decide for every class.
    fn is_decided_by(self, whom: Principal<'_>) -> bool
        ensures { result ≡ decides_for self (principal whom.entry) }
    {
        match whom {
            Principal::Owner => matches!(self, FileClass::Owner),
            Principal::Group => matches!(self, FileClass::Group),
            Principal::Everyone => true,
            Principal::User(_) | Principal::GroupNamed(_) => false,
        }
    }
}

impl GrantedSoFar {
    fn perm(self) -> Perm
        ensures { result.bits ≡ perm_of (has_bit self.granted.bits) }
    {
        part(READ, can_read(self.granted))
            | part(WRITE, can_write(self.granted))
            | part(EXECUTE, can_execute(self.granted))
    }
}

#[tactic(auto, using(crate::proofs::Bits::single_bits))]
fn can_read(granted: Mask) -> bool
    ensures { result ≡ has_bit granted.bits read_data }
{
    granted.contains(Mask::READ_DATA)
}

#[tactic(auto, using(crate::proofs::Bits::both_1_2))]
fn can_write(granted: Mask) -> bool
    ensures { result ≡ (has_bit granted.bits write_data && has_bit granted.bits append_data) }
{
    granted.contains(WRITE_RIGHTS)
}

#[tactic(auto, using(crate::proofs::Bits::single_bits))]
fn can_execute(granted: Mask) -> bool
    ensures { result ≡ has_bit granted.bits execute_right }
{
    granted.contains(Mask::EXECUTE)
}

// Returns the permission if it is granted, and otherwise no permission.
fn part(perm: Perm, is_granted: bool) -> Perm
    ensures { result.bits ≡ (if is_granted then perm.bits else 0) }
{
    if is_granted { perm } else { Perm::NONE }
}
