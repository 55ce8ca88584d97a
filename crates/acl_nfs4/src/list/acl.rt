//! The owned list, which is always accepted: an ACE is judged when it is added.
ghost use Rattle.std.specs.Prelude.{◌≡◌, ◌+◌, ◌<◌, ◌≤◌, ◌↔◌, count_ones, IsTrue, IfErr, IfOk, OnOk, OnErr, None};
ghost use Rattle.std.specs.Prelude.{[], ◌∷◌, ◌++◌, length};
ghost use Rattle.acl_nfs4.specs.Ace.{ace};
ghost use Rattle.acl_nfs4.specs.Spelling.{piece, word, IsAccepted, Fits};
ghost use Rattle.acl_nfs4.specs.Spelling as spelled;
ghost use Rattle.acl_nfs4.specs.Owned.{same_list};
ghost use Rattle.acl_nfs4.specs.Push.{push_refusal, PushAnswers};
ghost use Rattle.acl_nfs4.specs.declared.list.push_fault.PushFault.TheVariants.{Memory};
ghost use Rattle.acl_nfs4.specs.internal.Appending.{Extended};
ghost use Rattle.acl_nfs4.specs.internal.Reading.{Judges};
ghost use Rattle.acl_nfs4.specs.Limits.{most_aces, most_weight, longest_who};
ghost use Rattle.acl_nfs4.specs.Who.{IsWho};
ghost use Rattle.acl_perm.specs.Kind.{kind_number};
ghost use Rattle.acl_perm.specs.Profile.{full, profile_of};

use crate::ace::AceRef;
use crate::limits::{is_full, is_too_heavy};
use crate::list::aces::Aces;
use crate::list::push_fault::PushFault;
use crate::who::judge;
use crate::xdr::encode::count_word;
use crate::xdr::judges::pad_len;
use crate::xdr::view::AclView;
use acl_perm::Profile;
use byteorder::{BigEndian, ByteOrder};
use std::alloc::{AllocError, Global};
use std::cmp::Ordering;
use std::hash::{Hash, Hasher};
use std::marker::Model;

/// A list of ACEs (RFC 8881, section 6.2.1) that is always accepted: at most 65,536 ACEs, with at most 65,536 mask bits
/// together, each with a who of 1 to 1,024 bytes. It is kept as the bytes that spell it, in one allocation.
#[derive(Debug, Drop)]
pub struct Acl {
    pub(crate) count: u32,
    pub(crate) weight: u32,
    pub(crate) body: Vec<u8>,
}

impl Model for Acl {
    ghost use Rattle.std.specs.Prelude.{List};
    ghost use Rattle.acl_nfs4.specs.Ace.{Ace};
    ghost use Rattle.acl_nfs4.specs.internal.Body.{aces_of};
    ghost use Rattle.acl_nfs4.specs.Owned.{IsOwned};

    ghost Value = { List Ace };

    ghost view = { λ s. aces_of s.count s.body.items };

    ghost invariant = { λ s. IsOwned s.count s.weight s.body.items };
}

impl Acl {
    /// Returns the empty list. It takes no memory.
    pub fn new(alloc: Global) -> Acl
        ensures { result ≡ [] }
    {
        Acl {
            count: 0,
            weight: 0,
            body: Vec::new(alloc),
        }
    }

    /// Returns the number of ACEs, in constant time.
    pub fn len(&self) -> usize
        ensures { result ≡ length self.now }
    {
        self.view().len()
    }

    /// Returns whether there is no ACE, in constant time.
    pub fn is_empty(&self) -> bool
        ensures { IsTrue result ↔ (self.now ≡ []) }
    {
        self.view().is_empty()
    }

    /// Returns the number of mask bits that are set, over all ACEs. Constant time.
    pub fn weight(&self) -> u32
        ensures value { result ≡ spelled.weight self.now }
        ensures within { result ≤ most_weight }
    {
        self.weight
    }

    /// Returns the ACEs in order. To visit all of them takes time linear in their bytes, and no memory.
    pub fn aces(&self) -> Aces<'_>
        ensures same { result ≡ self.now }
        ensures accepted { IsAccepted full self.now }
    {
        self.view().aces()
    }

    /// Lends the list as a view, which the calls that only read a list take. Constant time, and no memory.
    pub fn view(&self) -> AclView<'_>
        ensures { result ≡ self.now }
    {
        AclView {
            count: self.count,
            body: &self.body,
        }
    }

    /// Returns whether the profile has every flag and every right of every ACE, so that the list is accepted under it.
    /// It takes time linear in the bytes, and no memory.
    pub fn fits(&self, profile: Profile) -> bool
        ensures exact { IsTrue result ↔ Fits (profile_of profile) self.now }
        ensures accepted { IsTrue result ↔ IsAccepted (profile_of profile) self.now }
    {
        self.view().fits(profile)
    }

    /// Returns the same list again, in time linear in its bytes and with one allocation. Fails if memory runs out.
    pub fn copy(&self, alloc: Global) -> Result<Acl, AllocError>
        ensures { IfOk result (λ a. a ≡ self.now) }
    {
        Ok(Acl {
            count: self.count,
            weight: self.weight,
            body: Vec::from_slice(alloc, &self.body)?,
        })
    }

    /// Returns the list of a view, in time linear in its bytes and with one allocation. Fails if memory runs out.
    pub fn from_view(alloc: Global, view: &AclView<'_>) -> Result<Acl, AllocError>
        ensures { IfOk result (λ a. a ≡ view.now) }
    {
        let body = Vec::from_slice(alloc, view.body)?;
        Ok(Acl {
            count: view.count,
            weight: view.weight(),
            body,
        })
    }

    /// Adds an ACE at the end if and only if the list stays accepted, unless memory runs out. Otherwise fails with the
    /// first condition, in the order of `PushFault`, that refuses the ACE, and leaves the list as it was. To push many
    /// ACEs takes time linear in their bytes.
    ///
    /// ```rust
    /// let mut list = Acl::new(alloc);
    /// let mask = read_mask(b"READ_DATA").ok_or("no such right")?;
    /// list.push(AceRef {
    ///     kind: Kind::Allow,
    ///     flags: Flags::NONE,
    ///     mask,
    ///     who: b"alice",
    /// })?;
    /// assert!(rt; list.len() == 1);
    /// ```
    pub fn push(&mut self, item: AceRef<'_>) -> Result<(), PushFault>
        ensures ok { OnOk result (self.new ≡ self.old ++ ace item.entry ∷ []) }
        ensures err { OnErr result (self.new ≡ self.old) }
        // A fault is the first condition that refuses.
        ensures fault { PushAnswers result (push_refusal self.old (ace item.entry)) }
        // `Memory` is returned only if no condition refuses.
        ensures wanted { IfErr result (λ f. f ≡ Memory
            → push_refusal self.old (ace item.entry) ≡ None) }
        ensures accepted { OnOk result (IsAccepted full (self.old ++ ace item.entry ∷ [])) }
        // An ACE with which the list stays accepted is not refused.
        ensures only { IsAccepted full (self.old ++ ace item.entry ∷ [])
            → push_refusal self.old (ace item.entry) ≡ None }
    {
        self.judge_next(&item)?;
        Ok(self.append(item)?)
    }

    // Judges one more ACE. A fault is the first condition that refuses it.
    fn judge_next(&self, item: &AceRef<'_>) -> Result<(), PushFault>
        ensures { Judges result (push_refusal self.now (ace item.now)) }
    {
        if is_full(self.count as usize) {
            return Err(PushFault::TooManyAces);
        }
        let bits = item.mask.bits().count_ones();
        if is_too_heavy(self.weight + bits) {
            return Err(PushFault::TooHeavy);
        }
        Ok(judge(item.who)?)
    }

    /// Adds an ACE at the end of a list that stays accepted with it. Fails only if memory runs out. It judges nothing:
    /// the caller must have a proof that the list stays accepted. Every other caller uses `push`.
    #[inline(always)]
    pub fn push_accepted(&mut self, item: AceRef<'_>) -> Result<(), AllocError>
        requires { IsAccepted full (self.old ++ ace item ∷ []) }
        ensures ok { OnOk result (self.new ≡ self.old ++ ace item.entry ∷ []) }
        ensures err { OnErr result (self.new ≡ self.old) }
    {
        self.append(item)
    }

    // Adds an ACE at the end of a list that can take it. It is inlined, because its callers append many ACEs in a loop.
    #[inline(always)]
    pub(crate) fn append(&mut self, item: AceRef<'_>) -> Result<(), AllocError>
        requires room { length self.old < most_aces }
        requires light { spelled.weight self.old + count_ones item.mask.bits ≤ most_weight }
        requires who { IsWho item.who.now }
        ensures ok { OnOk result (self.new ≡ self.old ++ ace item.entry ∷ []) }
        ensures err { OnErr result (self.new ≡ self.old) }
        ensures accepted { OnOk result (IsAccepted full (self.old ++ ace item.entry ∷ [])) }
    {
        append_piece(&mut self.body, &item)?;
        self.count += 1;
        self.weight += item.mask.bits().count_ones();
        Ok(())
    }
}

// Adds the bytes of an ACE at the end, or nothing.
#[inline(always)]
fn append_piece(body: &mut Vec<u8>, item: &AceRef<'_>) -> Result<(), AllocError>
    requires { length item.now.who.now ≤ longest_who }
    ensures { Extended body.old.items body.new.items (piece (ace item.now)) result }
{
    let len = item.who.len();
    // With this room nothing below requests memory, so no ACE is left half written.
    body.reserve(16 + len + 3)?;
    body.extend_from_slice(&head(item))?;
    body.extend_from_slice(item.who)?;
    // Three bytes and a cut take less time than a copy of the bytes that are needed.
    let end = body.len() + pad_len(len);
    body.extend_from_slice(&[0; 3])?;
    body.truncate(end);
    Ok(())
}

// Returns the four words that an ACE begins with.
#[inline(always)]
fn head(item: &AceRef<'_>) -> [u8; 16]
    requires { length item.now.who.now ≤ longest_who }
    ensures { result ≡ word (kind_number item.now.kind) ++ word item.now.flags.bits
        ++ word item.now.mask.bits ++ word (length item.now.who.now) }
{
    let mut bytes = [0u8; 16];
    BigEndian::write_u32(&mut bytes, item.kind.number());
    BigEndian::write_u32(&mut bytes[4..], item.flags.bits() as u32);
    BigEndian::write_u32(&mut bytes[8..], item.mask.bits());
    BigEndian::write_u32(&mut bytes[12..], item.who.len() as u32);
    bytes
}

impl PartialEq for Acl {
    ghost use Rattle.std.specs.Prelude.{◌≡◌, IsTrue, ◌↔◌};
    ghost use Rattle.acl_nfs4.specs.Owned.{same_list, same_list_laws};

    ghost eq = { same_list };

    ghost laws = { same_list_laws };

    fn eq(&self, other: &Acl) -> bool
        ensures value { result ≡ same_list self.now other.now }
        ensures exact { IsTrue result ↔ (self.now ≡ other.now) }
    {
        self.count == other.count && self.body == other.body
    }
}

impl Eq for Acl {
    ghost use Rattle.acl_nfs4.specs.Owned.{same_list_equiv};

    ghost laws = { same_list_equiv };
}

impl PartialOrd for Acl {
    ghost use Rattle.std.specs.Prelude.{◌≡◌, Some};
    ghost use Rattle.std.specs.Ordering.{as_partial_cmp};
    ghost use Rattle.std.specs.Cmp.{on_po};
    ghost use Rattle.std.specs.Cmp.Lexicographic.{texts_po};
    ghost use Rattle.acl_nfs4.specs.Owned.{list_cmp};
    ghost use Rattle.acl_nfs4.specs.Spelling.{spelling};

    ghost partial_cmp = { as_partial_cmp list_cmp };

    ghost laws = { on_po spelling texts_po };

    fn partial_cmp(&self, other: &Acl) -> Option<Ordering>
        ensures { result ≡ Some (list_cmp self.now other.now) }
    {
        Some(self.cmp(other))
    }
}

impl Ord for Acl {
    ghost use Rattle.std.specs.Prelude.{◌≡◌, refl};
    ghost use Rattle.std.specs.Cmp.{on_total};
    ghost use Rattle.std.specs.Cmp.Lexicographic.{nat_list_cmp_total, texts_ties};
    ghost use Rattle.acl_nfs4.specs.Owned.{list_cmp};
    ghost use Rattle.acl_nfs4.specs.Spelling.{spelling};

    ghost cmp = { list_cmp };

    ghost total = { on_total spelling nat_list_cmp_total };

    ghost matches_partial_cmp = { λ a b. refl };

    ghost matches_eq = { λ a b. texts_ties (spelling a) (spelling b) };

    #[tactic(auto, using(crate::proofs::list::Ordered::list_cmp_of_owned))]
    fn cmp(&self, other: &Acl) -> Ordering
        ensures { result ≡ list_cmp self.now other.now }
    {
        count_word(self.count)
            .cmp(&count_word(other.count))
            .then(self.body.cmp(&other.body))
    }
}

impl Hash for Acl {
    ghost use Rattle.acl_nfs4.specs.internal.FedAlike.{list_alike};
    ghost use Rattle.acl_nfs4.specs.Owned.{list_writes};

    ghost hash_input = { list_writes };

    ghost respects_eq = { list_alike };

    fn hash<H: Hasher>(&self, state: &mut H) {
        state.write(&count_word(self.count));
        state.write(&self.body);
    }
}

impl Clone for Acl {
    ghost use Rattle.std.specs.Prelude.{◌≡◌};

    ghost is_clone = { λ acl copy. copy ≡ acl };

    fn clone(&self) -> Result<Acl, AllocError> {
        self.copy(*self.body.allocator())
    }
}

impl<'a> IntoIterator for &'a Acl {
    ghost use Rattle.std.specs.Prelude.{◌≡◌};

    type Item = AceRef<'a>;

    type IntoIter = Aces<'a>;

    ghost into_iter_gives = { λ acl aces. aces ≡ acl.now };

    fn into_iter(self) -> Aces<'a> {
        self.view().into_iter()
    }
}
