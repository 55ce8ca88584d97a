//! The normal forms of the list of a directory, and of the lists of everything that will ever be created below it.
ghost use Rattle.std.specs.Prelude.{◌+◌, ◌<◌, ◌≡◌, OnErr};
ghost use Rattle.acl_normal.specs.Common.{five_spellings, IfOk, IsAccepted, IsNormalFormOf, IsProfile, OnOk, Profile, spelling};
ghost use Rattle.acl_perm.specs.Devices.{one_more};
ghost use Rattle.acl_perm.specs.Pieces.{Writes, WritesFrom};
ghost use Rattle.acl_eval.specs.declared.inherit.ChildKind.TheVariants.{Directory, File};
ghost use Rattle.acl_normal.specs.FiveForms.{AreAccepted, AreFormsOf};
ghost use Rattle.acl_normal.specs.Paths.{SameFurtherBelow, at, below, here};
ghost use Rattle.acl_nfs4.specs.Limits.{spelling_limit};
ghost use Rattle.acl_normal.specs.internal.Limits.{written_limit};

use crate::normal_form::normalize;
use acl_eval::{ChildKind, child};
use acl_nfs4::Acl;
use acl_perm::{Sink, WriteFault};
use std::alloc::{AllocError, Global};

/// The normal forms of the lists of an object, of a new file and a new directory in it, and of a new file and a new
/// directory in that new directory. An object that is created further below has the list of its kind in the new
/// directory.
#[derive(Debug, Drop)]
pub struct FiveForms {
    /// The normal form of the list itself.
    pub object: Acl,
    /// The normal form of the list of a new file.
    pub file: Acl,
    /// The normal form of the list of a new directory.
    pub directory: Acl,
    /// The normal form of the list of a new file in a new directory.
    pub file_in_directory: Acl,
    /// The normal form of the list of a new directory in a new directory.
    pub directory_in_directory: Acl,
}

impl FiveForms {
    /// Returns a copy, with one allocation for each form. Fails if memory runs out.
    pub fn copy(&self, alloc: Global) -> Result<FiveForms, AllocError>
        ensures { IfOk result (λ forms. forms ≡ self.now) }
    {
        Ok(FiveForms {
            object: self.object.copy(alloc)?,
            file: self.file.copy(alloc)?,
            directory: self.directory.copy(alloc)?,
            file_in_directory: self.file_in_directory.copy(alloc)?,
            directory_in_directory: self.directory_in_directory.copy(alloc)?,
        })
    }

    /// Writes the bytes that spell the five forms, one after the other in the order of the fields (RFC 4506 over RFC
    /// 8881, section 6.2.1). It takes no memory. It ends at the first write that fails and does not repeat it;
    /// `written` of the fault is the number of bytes that were written before.
    pub fn encode<K: Sink>(&self, sink: &mut K) -> Result<(), WriteFault>
        ensures { Writes K.contents K.failure_count sink.old sink.new
            (five_spellings self.now) result }
    {
        put_forms(sink, self)?;
        Ok(())
    }
}

impl PartialEq for FiveForms {
    ghost use Rattle.std.specs.Prelude.{◌≡◌, ◌↔◌, IsTrue};
    ghost use Rattle.std.specs.Cmp.{on_per};
    ghost use Rattle.std.specs.Cmp.Lexicographic.{lists_per};
    ghost use Rattle.acl_nfs4.specs.Owned.{same_list_laws};
    ghost use Rattle.acl_normal.specs.FiveForms.{five_lists, same_forms};

    ghost eq = { same_forms };

    ghost laws = { on_per five_lists (lists_per same_list_laws) };

    fn eq(&self, other: &FiveForms) -> bool
        ensures value { result ≡ same_forms self.now other.now }
        ensures exact { IsTrue result ↔ (self.now ≡ other.now) }
    {
        self.object == other.object
            && self.file == other.file
            && self.directory == other.directory
            && self.file_in_directory == other.file_in_directory
            && self.directory_in_directory == other.directory_in_directory
    }
}

impl Eq for FiveForms {
    ghost use Rattle.std.specs.Cmp.{on_equiv};
    ghost use Rattle.std.specs.Cmp.Lexicographic.{lists_equiv};
    ghost use Rattle.acl_nfs4.specs.Owned.{same_list_equiv};
    ghost use Rattle.acl_normal.specs.FiveForms.{five_lists};

    ghost laws = { on_equiv five_lists (lists_equiv same_list_equiv) };
}

// Writes the bytes that spell the five forms, and returns their number.
fn put_forms<K: Sink>(sink: &mut K, forms: &FiveForms) -> Result<u64, WriteFault>
    ensures written { WritesFrom (K.contents sink.old) (K.contents sink.new) 0
        (five_spellings forms.now) result }
    ensures none_failed { OnOk result (K.failure_count sink.new ≡ K.failure_count sink.old) }
    ensures failed { OnErr result (K.failure_count sink.new ≡ one_more (K.failure_count sink.old)) }
{
    let object = put_list(sink, 0, &forms.object)?;
    let file = put_list(sink, object, &forms.file)?;
    let directory = put_list(sink, file, &forms.directory)?;
    let inner_file = put_list(sink, directory, &forms.file_in_directory)?;
    put_list(sink, inner_file, &forms.directory_in_directory)
}

// Writes the bytes that spell a list, and returns their number together with the `done` bytes that were written before.
fn put_list<K: Sink>(sink: &mut K, done: u64, list: &Acl) -> Result<u64, WriteFault>
    requires { done < written_limit }
    ensures written { WritesFrom (K.contents sink.old) (K.contents sink.new) done
        (spelling list.now) result }
    ensures small { IfOk result (λ count. count < done + spelling_limit) }
    ensures none_failed { OnOk result (K.failure_count sink.new ≡ K.failure_count sink.old) }
    ensures failed { OnErr result (K.failure_count sink.new ≡ one_more (K.failure_count sink.old)) }
{
    let len = list.encoded_len();
    match list.encode(sink) {
        Ok(()) => Ok(done + len),
        Err(fault) => Err(WriteFault {
            written: done + fault.written,
        }),
    }
}

/// Returns the five normal forms of a list, of a new file, of a new directory, and of a new file and a new directory in
/// that new directory, by this library's table of inheritance. Two lists have the same five forms if and only if they
/// grant the same, and so do the lists of all objects that will ever be created below them. It takes time that is
/// nearly linear in the bytes of the list. Fails if memory runs out.
///
/// ```rust
/// let list = parse_text(alloc, b"ALLOW FILE READ_DATA amy")?;
/// let forms = normalize_inherit(alloc, &list)?;
/// assert!(rt; forms.file.len() == 1);
/// assert!(rt; forms.directory.is_empty());
/// assert!(rt; forms.file_in_directory == forms.file);
/// ```
#[tactic(auto, using(crate::proofs::five_forms::Paths::same_further_below))]
pub fn normalize_inherit(alloc: Global, list: &Acl) -> Result<FiveForms, AllocError>
    ensures object { IfOk result (λ forms. IsNormalFormOf (at list.now here) forms.object) }
    ensures file { IfOk result (λ forms. IsNormalFormOf (at list.now (below 0 File)) forms.file) }
    ensures directory { IfOk result (λ forms.
        IsNormalFormOf (at list.now (below 0 Directory)) forms.directory) }
    ensures file_in_directory { IfOk result (λ forms.
        IsNormalFormOf (at list.now (below 1 File)) forms.file_in_directory) }
    ensures directory_in_directory { IfOk result (λ forms.
        IsNormalFormOf (at list.now (below 1 Directory)) forms.directory_in_directory) }
    // Further below, the lists are those one directory below.
    ensures further { SameFurtherBelow list.now }
    // Under each profile under which the list is accepted, each of the five is accepted.
    ensures accepted { IfOk result (λ forms. (p : Profile) → IsProfile p → IsAccepted p list.now
        → AreAccepted p forms) }
{
    let file_list = child(alloc, list, ChildKind::File)?;
    let directory_list = child(alloc, list, ChildKind::Directory)?;
    forms_of(alloc, list, &file_list, &directory_list)
}

// The five forms of a list. The lists of a new file and of a new directory in it are given.
fn forms_of(
    alloc: Global,
    list: &Acl,
    file_list: &Acl,
    directory_list: &Acl,
) -> Result<FiveForms, AllocError>
    requires file { file_list.now ≡ at list.now (below 0 File) }
    requires directory { directory_list.now ≡ at list.now (below 0 Directory) }
    ensures { IfOk result (AreFormsOf list.now) }
{
    let object = normalize(alloc, list)?;
    let file = normalize(alloc, file_list)?;
    let directory = form_beside(alloc, directory_list, list, &object)?;
    let inner_file = child(alloc, directory_list, ChildKind::File)?;
    let file_in_directory = form_beside(alloc, &inner_file, file_list, &file)?;
    let inner_directory = child(alloc, directory_list, ChildKind::Directory)?;
    let directory_in_directory = form_beside(alloc, &inner_directory, directory_list, &directory)?;
    Ok(FiveForms {
        object,
        file,
        directory,
        file_in_directory,
        directory_in_directory,
    })
}

// The normal form of a list. Another list and its form are given. If the lists are equal, as they mostly are because
// most ACEs keep their flags on their way down, the form is copied.
fn form_beside(alloc: Global, list: &Acl, other: &Acl, other_form: &Acl) -> Result<Acl, AllocError>
    requires { IsNormalFormOf other.now other_form.now }
    ensures { IfOk result (λ form. IsNormalFormOf list.now form) }
{
    if *list == *other {
        let form = other_form.copy(alloc)?;
        Ok(form)
    } else {
        normalize(alloc, list)
    }
}
