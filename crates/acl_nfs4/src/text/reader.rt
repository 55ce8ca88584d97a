//! Lists from their text, line by line.
ghost use Rattle.std.specs.Prelude.{◌≡◌, ◌⊎◌, [], IfErr, IfOk, List, MatchResult, Ok};
ghost use Rattle.acl_perm.specs.Profile.{full, profile_of};
ghost use Rattle.acl_nfs4.specs.Ace.{Ace};
ghost use Rattle.acl_nfs4.specs.internal.AceReading.{read_lines, AddsLine, FailsAs};
ghost use Rattle.acl_nfs4.specs.AceText.{IsAceText, ace_lines};
ghost use Rattle.acl_nfs4.specs.AceTextFault.{IsAceTextFault, IsTextRefusal};
ghost use Rattle.acl_nfs4.specs.declared.text.fault.AceTextFault.{AceTextFault as FaultValue};
ghost use Rattle.acl_nfs4.specs.declared.text.fault.AceTextFault.TheVariants.{Memory};

use crate::list::acl::Acl;
use crate::text::fault::AceTextFault;
use crate::text::line::{is_skipped, read_ace};
use acl_perm::Profile;
use acl_perm::internal::cut_line;
use std::alloc::Global;

/// Returns the list that a text spells: one line per ACE, `KIND FLAGS MASK WHO`, with one space between the fields, if
/// and only if it spells one, unless memory runs out. It skips lines of blanks and lines that begin with `#`. A text
/// that spells no list is refused because of its first wrong line. Time linear in the text, and one growing list.
///
/// ```rust
/// let text = b"ALLOW - READ_DATA OWNER@\nDENY GROUP WRITE_DATA staff\n";
/// let list = parse_text(alloc, text)?;
/// assert!(rt; list.len() == 2);
/// assert!(rt; list.weight() == 2);
/// ```
pub fn parse_text(alloc: Global, text: &[u8]) -> Result<Acl, AceTextFault>
    ensures found { IfOk result (λ list. IsAceText full list text.now) }
    // If the text spells a list, that list is returned.
    ensures only { (list : List Ace) → IsAceText full list text.now
        → MatchResult result (λ read. read ≡ list) (λ fault. fault ≡ Memory) }
    ensures fault { IfErr result (IsTextRefusal full text.now) }
    // A text with a fault is refused with that fault.
    ensures refused { (wrong : FaultValue) → IsAceTextFault full text.now wrong
        → MatchResult result (λ _. ⊥) (λ fault. (fault ≡ wrong) ⊎ (fault ≡ Memory)) }
{
    parse_text_with(alloc, text, Profile::FULL)
}

/// Returns the list that a text spells, as `parse_text` does, if the profile has its flags and masks. The name of
/// another flag or right is Flag or Mask.
#[tactic(auto, using(crate::proofs::text::AceLines::text_founds, crate::proofs::text::AceLines::refusals))]
pub fn parse_text_with(alloc: Global, text: &[u8], profile: Profile) -> Result<Acl, AceTextFault>
    ensures found { IfOk result (λ list. IsAceText (profile_of profile) list text.now) }
    ensures only { (list : List Ace) → IsAceText (profile_of profile) list text.now
        → MatchResult result (λ read. read ≡ list) (λ fault. fault ≡ Memory) }
    ensures fault { IfErr result (IsTextRefusal (profile_of profile) text.now) }
    ensures refused { (wrong : FaultValue) → IsAceTextFault (profile_of profile) text.now wrong
        → MatchResult result (λ _. ⊥) (λ fault. (fault ≡ wrong) ⊎ (fault ≡ Memory)) }
{
    read_text(alloc, text, profile)
}

fn read_text(alloc: Global, text: &[u8], profile: Profile) -> Result<Acl, AceTextFault>
    ensures { MatchResult result
        (λ acl. read_lines (profile_of profile) [] (ace_lines text.now) ≡ Ok acl)
        (λ fault. FailsAs fault (read_lines (profile_of profile) [] (ace_lines text.now))) }
{
    let mut acl = Acl::new(alloc);
    let mut number = 1;
    let mut rest = Some(text);
    while let Some(left) = rest {
        let (line, after) = cut_line(left);
        add_line(&mut acl, line, number, profile)?;
        number += 1;
        rest = after;
    }
    Ok(acl)
}

// Adds the ACE of a line, if the line should spell one, before any lines that follow.
fn add_line(acl: &mut Acl, line: &[u8], number: usize, profile: Profile) -> Result<(), AceTextFault>
    ensures { AddsLine (profile_of profile) number line.now acl.old acl.new result }
{
    if is_skipped(line) {
        return Ok(());
    }
    let item = read_ace(line, number, acl.len(), acl.weight(), profile)?;
    Ok(acl.append(item)?)
}
