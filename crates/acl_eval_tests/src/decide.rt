//! A caller of the library that has a contract of its own: it decides from the bytes of the attribute alone.
ghost use Rattle.std.specs.Prelude.{◌≡◌, ◌↔◌, ◌⊎◌, List, Err, IfErr, IfOk, IsOk, IsTrue, Some, map};
ghost use Rattle.acl_perm.specs.Profile.{full};
ghost use Rattle.acl_perm.specs.declared.kind.Kind.TheVariants.{Allow};
ghost use Rattle.acl_nfs4.specs.Ace.{Ace};
ghost use Rattle.acl_nfs4.specs.Fault.{IsWholeFault};
ghost use Rattle.acl_nfs4.specs.Spelling.{Xdr};
ghost use Rattle.acl_nfs4.specs.declared.xdr.fault.Fault.{Fault};
ghost use Rattle.acl_eval.specs.Deciding.{deciding_kind};
ghost use Rattle.acl_eval.specs.Grant.{Grant};
ghost use Rattle.acl_eval.specs.Situation.{HasNoEmptyName, situation, named_situation};

use acl_eval::{Object, Requester, grants, laws};
use acl_nfs4::{Aces, AclView, Fault};
use acl_perm::{Mask, Right};

/// Why a request is not decided.
#[derive(Clone, Copy, Debug, PartialEq, Eq)]
pub enum DecideFault {
    /// The attribute spells no list.
    Attribute(Fault),
    /// The attribute spells a list, but a name is empty.
    EmptyName,
}

impl From<Fault> for DecideFault {
    ghost use Rattle.std.specs.Prelude.{◌≡◌};
    ghost use Rattle.acl_eval_tests.specs.declared.decide.DecideFault.TheVariants.{Attribute};

    ghost from_gives = { λ fault own. own ≡ Attribute fault };

    fn from(fault: Fault) -> DecideFault {
        DecideFault::Attribute(fault)
    }
}

/// Returns whether the list that the attribute spells grants the user the whole mask on the object.
pub fn decide(
    attribute: &[u8],
    owner: &[u8],
    group: &[u8],
    user: &[u8],
    groups: &[&[u8]],
    mask: Mask,
) -> Result<bool, DecideFault>
    // The attribute spells a list, and the answer is whether that list grants the request.
    ensures answer { IfOk result (λ answer. (list : List Ace) × Xdr full list attribute.now
        × (IsTrue answer ↔ Grant list (named_situation owner.now group.now user.now
        (map (λ g. g.now) groups.now)) mask.bits)) }
    // No name is empty where there is an answer, and one is where EmptyName is reported.
    ensures named { IsOk result → HasNoEmptyName (named_situation owner.now group.now user.now
        (map (λ g. g.now) groups.now)) }
    ensures empty { result ≡ Err DecideFault.EmptyName
        → ¬ (HasNoEmptyName
        (named_situation owner.now group.now user.now (map (λ g. g.now) groups.now))) }
    // A fault of the attribute is the one that the library's definition gives, and it is always reported.
    ensures fault { IfErr result (λ e. (e ≡ DecideFault.EmptyName) ⊎ ((f : Fault)
        × (e ≡ DecideFault.Attribute f) × IsWholeFault full attribute.now f.offset f.reason)) }
    ensures refused { (f : Fault) → IsWholeFault full attribute.now f.offset f.reason
        → result ≡ Err (DecideFault.Attribute f) }
{
    let list = AclView::parse_whole(attribute)?;
    let object = Object::new(owner, group).ok_or(DecideFault::EmptyName)?;
    let requester = Requester::new(user, groups).ok_or(DecideFault::EmptyName)?;
    Ok(grants(list.aces(), &object, &requester, mask))
}

/// Returns whether the list grants one right. A law of the library, called for its clauses, adds that this is so if and
/// only if the ACE that decides the right is an ALLOW.
pub fn may(aces: Aces<'_>, object: &Object<'_>, requester: &Requester<'_>, right: Right) -> bool
    ensures { IsTrue result
        ↔ (deciding_kind aces.entry (situation object.now requester.now) right.bit ≡ Some Allow) }
{
    laws::one_right();
    grants(aces, object, requester, Mask::from(right))
}

#[cfg(test)]
mod tests {
    use super::*;
    use std::test::Fail;

    // DENY WRITE_DATA bob, ALLOW WRITE_DATA EVERYONE@.
    const ATTRIBUTE: &[u8; 52] = b"\0\0\0\x02\
        \0\0\0\x01\0\0\0\0\0\0\0\x02\0\0\0\x03bob\0\
        \0\0\0\0\0\0\0\0\0\0\0\x02\0\0\0\x09EVERYONE@\0\0\0";

    #[test]
    fn the_bytes_of_the_attribute_decide(rt: HostRuntime) -> Result<(), Fail> {
        let write = Mask::WRITE_DATA;
        let alice = decide(ATTRIBUTE, b"alice", b"staff", b"alice", &[], write);
        assert_eq!(rt; alice, Ok(true));
        let bob = decide(ATTRIBUTE, b"alice", b"staff", b"bob", &[b"staff"], write);
        assert_eq!(rt; bob, Ok(false));
        let unnamed = decide(ATTRIBUTE, b"alice", b"", b"bob", &[], write);
        assert_eq!(rt; unnamed, Err(DecideFault::EmptyName));
        let cut = decide(&ATTRIBUTE[..51], b"alice", b"staff", b"bob", &[], write);
        assert!(rt; matches!(&cut, Err(DecideFault::Attribute(_))));
        Ok(())
    }

    #[test]
    fn one_right_is_decided_by_one_ace(rt: HostRuntime) -> Result<(), Fail> {
        let list = AclView::parse_whole(ATTRIBUTE)?;
        let object = Object::new(b"alice", b"staff").ok_or("a name is empty")?;
        let bob = Requester::new(b"bob", &[]).ok_or("a name is empty")?;
        let write = Right::new(1).ok_or("no such right")?;
        assert!(rt; !may(list.aces(), &object, &bob, write));
        Ok(())
    }
}
