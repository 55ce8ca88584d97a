//! The questions that show all that a list grants, as XDR.
ghost use Rattle.std.specs.List.{flat_map};
ghost use Rattle.std.specs.Prelude.{◌++◌, ◌≡◌, map};
ghost use Rattle.acl_contain.specs.Questions.{asked_in};
ghost use Rattle.acl_nfs4.specs.Spelling.{word};
ghost use Rattle.aclck_c.specs.Common.{IfErr, IfOk, IsProfileOption, JudgesInput, OnOk, WritesBytes, profile_from, profile_of};
ghost use Rattle.aclck_c.specs.Lists.{AreList};
ghost use Rattle.aclck_c.specs.Questions.{AreRefusedQuestions, MakesQuestions, name_bytes, question_bytes, questions_bytes};
ghost use Rattle.aclck_c.specs.Status as status;
ghost use Rattle.aclck_c.specs.internal.Failures.{AreQuestionsFailure, of_questions};

use crate::failure::Failure;
use crate::nfs4::reading::list_of;
use crate::options::profile_from;
use crate::out::answer;
use crate::reason::Reason;
use crate::refusal::Refusal;
use crate::status::Status;
use acl_contain::{Question, QuestionsFault, questions};
use acl_nfs4::internal::pad_len;
use acl_perm::Profile;
use std::alloc::{AllocError, Global};

/// Writes the questions of the list as XDR (RFC 4506): the owner and the owning group of an object, and a user and the
/// groups of that user. Another list that mentions no other principals, and grants the same in each question, grants
/// the same to everybody (this library's own, over RFC 8881, section 6.2.1). Returns 0 if the bytes are at the front of
/// `out`; 2 if the bytes of the list are refused, or if there are more than `most` questions, with the reason in
/// `fault`; 3 if an option has no meaning; 4 if memory ran out; 5 if `out` is too short. At 0 and 5 `needed` is the
/// number of bytes.
#[unsafe(no_mangle)]
pub extern "C" fn aclck_questions(
    alloc: Global,
    acl: &[u8],
    most: u32,
    options: u32,
    out: &mut [u8],
    needed: &mut usize,
    fault: &mut Refusal,
) -> u32
    ensures bytes { WritesBytes (MakesQuestions (profile_from options) most acl.now)
        out.old out.new needed.old needed.new result }
    ensures input { JudgesInput (AreRefusedQuestions (profile_from options) most acl.now)
        (AreList (profile_from options) acl.now) (IsProfileOption options) status.done_or_short
        fault.old fault.new result }
{
    let Some(profile) = profile_from(options) else {
        return Status::BadArgument.number();
    };
    answer(asked(alloc, acl, most, profile), out, needed, fault)
}

impl From<QuestionsFault> for Failure {
    ghost from_gives = { λ fault failure. failure ≡ of_questions fault };

    fn from(fault: QuestionsFault) -> Failure {
        match fault {
            QuestionsFault::TooMany => Failure::Refused(Refusal::at(Reason::TooMany, 0)),
            QuestionsFault::Memory => Failure::Memory,
        }
    }
}

// Fails if the bytes are refused, there are more than `most` questions, or memory runs out.
#[tactic(auto, using(crate::proofs::Asking::list_failure, crate::proofs::Asking::questions_failure))]
fn asked(alloc: Global, acl: &[u8], most: u32, profile: Profile) -> Result<Vec<u8>, Failure>
    ensures ok { IfOk result (λ bytes.
        MakesQuestions (profile_of profile) most acl.now bytes.items) }
    ensures err { IfErr result (AreQuestionsFailure (profile_of profile) most acl.now) }
{
    let list = list_of(alloc, acl, profile)?;
    let found = questions(alloc, &list, most as usize)?;
    Ok(spelled(alloc, &found)?)
}

fn spelled(alloc: Global, asked: &[Question]) -> Result<Vec<u8>, AllocError>
    ensures { IfOk result (λ bytes. bytes.items ≡ questions_bytes (map asked_in asked.now)) }
{
    let mut bytes = Vec::new(alloc);
    add_number(&mut bytes, asked.len())?;
    for question in asked {
        add_question(&mut bytes, question)?;
    }
    Ok(bytes)
}

fn add_question(bytes: &mut Vec<u8>, question: &Question) -> Result<(), AllocError>
    ensures { OnOk result (bytes.new.items
        ≡ bytes.old.items ++ question_bytes (asked_in question.now)) }
{
    add_name(bytes, &question.owner)?;
    add_name(bytes, &question.group)?;
    add_name(bytes, &question.user)?;
    add_number(bytes, question.groups.len())?;
    add_names(bytes, &question.groups)
}

fn add_names(bytes: &mut Vec<u8>, names: &[Vec<u8>]) -> Result<(), AllocError>
    ensures { OnOk result (bytes.new.items
        ≡ bytes.old.items ++ flat_map name_bytes (map (λ n. n.items) names.now)) }
{
    for name in names {
        add_name(bytes, name)?;
    }
    Ok(())
}

// Adds the number of bytes of a name, the name, and zero bytes up to a multiple of four.
fn add_name(bytes: &mut Vec<u8>, name: &[u8]) -> Result<(), AllocError>
    ensures { OnOk result (bytes.new.items ≡ bytes.old.items ++ name_bytes name.now) }
{
    add_number(bytes, name.len())?;
    bytes.extend_from_slice(name)?;
    bytes.extend_from_slice(&[0; 3][..pad_len(name.len())])?;
    Ok(())
}

// No name of a list is longer than 1,024 bytes, and there are at most `most` questions, so the number always fits.
fn add_number(bytes: &mut Vec<u8>, number: usize) -> Result<(), AllocError>
    ensures { OnOk result (bytes.new.items ≡ bytes.old.items ++ word number) }
{
    match u32::try_from(number) {
        Ok(number) => bytes.extend_from_slice(&number.to_be_bytes()),
        Err(_) => Err(AllocError),
    }
}
