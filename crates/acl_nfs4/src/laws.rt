//! Laws of the bytes and of the texts of lists.

ghost use Rattle.std.specs.Prelude.{◌≡◌, ◌↔◌, ◌<◌, ◌≤◌, ◌++◌, ℕ, List, Some, length, take};
ghost use Rattle.std.specs.List.{AllByRecursion, concat};
ghost use Rattle.acl_nfs4.specs.Ace.{Ace};
ghost use Rattle.acl_nfs4.specs.Spelling.{Fits, IsAccepted, Xdr, weight, word_limit};
ghost use Rattle.acl_nfs4.specs.Within.{IsProfile};
ghost use Rattle.acl_perm.specs.Profile.{Profile, full};
ghost use Rattle.acl_nfs4.specs.Fault.{Border, IsFault, IsFirstFault, IsWholeFault, Stage};
ghost use Rattle.acl_nfs4.specs.AceText.{IsAceText, ace_text};
ghost use Rattle.acl_nfs4.specs.AceTextFault.{IsAceTextFault};
ghost use Rattle.acl_nfs4.specs.BitNames.{first_name};
ghost use Rattle.acl_nfs4.specs.Rights.{SpellsMask, rights};
ghost use Rattle.acl_nfs4.specs.declared.text.fault.AceTextFault.{AceTextFault};
ghost use Rattle.acl_nfs4.specs.Laws.{BeginsSpelling, FedAsAtOnce, IsInAceText, pairs_of};
ghost use Rattle.acl_nfs4.specs.declared.xdr.fault.Fault.{Fault};
ghost use Rattle.acl_nfs4.specs.declared.xdr.fault.Reason.{Reason};
ghost use Rattle.std.specs.Prelude.{[]};
ghost use Rattle.acl_nfs4.specs.Stream.{Feeds, FeedsEach, RefusesStream, StreamState, more, together};
ghost use Rattle.acl_nfs4.specs.declared.feed.fed.Fed.{Fed};

/// No spelling is the beginning of another, and none spells two lists, under each profile.
#[tactic(auto, using(crate::proofs::xdr::Resume::one_spelling))]
pub fn one_spelling()
    ensures { (p : Profile) (a b : List Ace) (s t x y : List ℕ) → IsProfile p → Xdr p a s
        → Xdr p b t
        → s ++ x ≡ t ++ y → (a ≡ b) × (s ≡ t) }
{}

/// A list is accepted under a profile if and only if it is accepted under the full one and fits the profile.
#[tactic(auto, using(crate::proofs::list::Within::accepted_where_it_fits))]
pub fn accepted_where_it_fits()
    ensures { (p : Profile) (list : List Ace) → IsProfile p
        → IsAccepted p list ↔ (IsAccepted full list × Fits p list) }
{}

/// The fields before a field begin the spelling of some accepted list, and so do the bytes before a fault.
pub fn faults_break_spellings()
    ensures border { (p : Profile) (stage : Stage) (text : List ℕ) → Border p stage text
        → BeginsSpelling p text }
    ensures fault { (p : Profile) (bytes : List ℕ) (offset : ℕ) (r : Reason)
        → IsFault p bytes offset r
        → BeginsSpelling p (take offset bytes) }
{}

/// Bytes have at most one fault, and none if they begin with the spelling of a list.
pub fn one_fault()
    ensures one { (p : Profile) (bytes : List ℕ) (o q t u : ℕ) (r s : Reason) → IsProfile p
        → IsFirstFault p bytes o t r → IsFirstFault p bytes q u s → (o ≡ q) × (t ≡ u) × (r ≡ s) }
    ensures none { (p : Profile) (bytes : List ℕ) (list : List Ace) (text rest : List ℕ) (o : ℕ)
        (r : Reason)
        → IsProfile p → Xdr p list text → bytes ≡ text ++ rest → IsFault p bytes o r → ⊥ }
{}

/// Bytes that should be one spelling and nothing more have at most one fault, and none if they are one spelling.
#[tactic(auto, using(crate::proofs::xdr::OneFault::one_whole_fault, crate::proofs::xdr::OneFault::whole_or_fault))]
pub fn one_whole_fault()
    ensures one { (p : Profile) (bytes : List ℕ) (o q : ℕ) (r s : Reason) → IsProfile p
        → IsWholeFault p bytes o r
        → IsWholeFault p bytes q s → (o ≡ q) × (r ≡ s) }
    ensures none { (p : Profile) (bytes : List ℕ) (list : List Ace) (o : ℕ) (r : Reason)
        → IsProfile p
        → Xdr p list bytes → IsWholeFault p bytes o r → ⊥ }
{}

/// A fault of bytes is in the bytes or at their end, whether the bytes should be one list and nothing more, should begin
/// with a list, or are a stream so far. The bytes that a reader takes are bytes of the input, and a fault is not behind
/// them.
pub fn faults_are_in_the_bytes()
    ensures first { (p : Profile) (bytes : List ℕ) (offset taken : ℕ) (r : Reason)
        → IsFirstFault p bytes offset taken r → (offset ≤ taken) × (taken ≤ length bytes) }
    ensures whole { (p : Profile) (bytes : List ℕ) (offset : ℕ) (r : Reason)
        → IsWholeFault p bytes offset r → offset ≤ length bytes }
    ensures stream { (p : Profile) (stream : List ℕ) (fault : Fault)
        → RefusesStream p stream fault → fault.offset ≤ length stream }
{}

/// If the masks of a list are below 2^32, its weight is the number of pairs of a place in the list and a bit of the ACE
/// at that place.
#[tactic(auto, using(crate::proofs::list::Weights::weight_counts))]
pub fn weight_counts_pairs()
    ensures { (list : List Ace) → AllByRecursion (λ a. a.mask < word_limit) list
        → weight list ≡ length (pairs_of list) }
{}

/// Pieces that are fed one after the other to a new `Feed` have the same answer as all of them fed at once, and leave
/// it in the same state, unless memory runs out in one of the two cases. So it does not matter how a stream is cut into
/// pieces.
pub fn any_cutting()
    ensures together { (p : Profile) (pieces : List (List ℕ)) (answers : List Fed)
        (new : StreamState) → FeedsEach (more p []) pieces answers new
        → Feeds (more p []) (concat pieces) (together pieces answers) new }
    ensures once { (p : Profile) (pieces : List (List ℕ)) → IsProfile p → FedAsAtOnce p pieces }
{}

/// The written text of a list spells that list and no other.
#[tactic(auto, using(crate::proofs::text::AceWritten::reads_back))]
pub fn text_reads_back()
    ensures { (p : Profile) (list other : List Ace) → IsProfile p → IsAccepted p list
        → IsAceText p other (ace_text list) ↔ (other ≡ list) }
{}

/// A text spells at most one list, has at most one fault, and does not do both.
#[tactic(auto, using(crate::proofs::text::AceLines::one_list))]
pub fn one_text_fault()
    ensures list { (p : Profile) (text : List ℕ) (a b : List Ace) → IsAceText p a text
        → IsAceText p b text → a ≡ b }
    ensures one { (p : Profile) (text : List ℕ) (f g : AceTextFault) → IsAceTextFault p text f
        → IsAceTextFault p text g → f ≡ g }
    ensures none { (p : Profile) (text : List ℕ) (list : List Ace) (f : AceTextFault)
        → IsAceText p list text
        → IsAceTextFault p text f → ⊥ }
{}

/// A fault of a text is at a line of the text, at the column of a byte of this line or of the byte after the line.
pub fn text_faults_are_in_the_text()
    ensures { (p : Profile) (text : List ℕ) (fault : AceTextFault) → IsAceTextFault p text fault
        → IsInAceText text fault }
{}

/// The name of a right names its bit, and nothing else.
pub fn names_are_read()
    ensures { (bit mask : ℕ) (name : List ℕ) → first_name rights bit ≡ Some name
        → SpellsMask name mask ↔ (mask ≡ bit) }
{}
