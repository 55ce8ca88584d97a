//! Writes the texts of ACLs to a sink.
ghost use Rattle.std.specs.Prelude.{◌≡◌, ◌+◌, ◌<◌, IfOk, OnErr, OnOk, None, length, option_map};
ghost use Rattle.std.specs.FinMap as set;
ghost use Rattle.acl_perm.specs.Counts.{count_limit};
ghost use Rattle.acl_perm.specs.Devices.{one_more};
ghost use Rattle.acl_perm.specs.Pieces.{Writes, WritesFrom};
ghost use Rattle.acl_posix.specs.Programs.{file_text};
ghost use Rattle.acl_posix.specs.Texts.{canonical_text, form_text, short_text, shown_text};
ghost use Rattle.acl_posix.specs.Entries.{pairs};
ghost use Rattle.acl_posix.specs.internal.Writing.{part_out};

use crate::acl::PosixAcl;
use crate::entry::Entry;
use crate::entry_writer::{LINE, put_entry};
use crate::file::PosixFile;
use crate::form::AclTextForm;
use crate::text_fault::Part;
use acl_perm::internal::put_next;
use acl_perm::{Counted, Sink, WriteFault};
use std::alloc::{AllocError, Global};

impl PosixFile {
    /// Writes the canonical text: one line per entry in canonical order, with the default ACL after the access ACL. It
    /// ends at the first put that fails, and tries nothing again. It takes no memory and linear time.
    pub fn write_canonical<S: Sink>(&self, sink: &mut S) -> Result<(), WriteFault>
        ensures { Writes S.contents S.failure_count sink.old sink.new
            (canonical_text self.now.access self.now.default) result }
    {
        self.write(sink, AclTextForm::Canonical)
    }

    /// Writes the canonical text with a comment after each entry that the mask limits: its effective permissions. It
    /// ends at the first put that fails, and tries nothing again. It takes no memory and linear time.
    pub fn write_shown<S: Sink>(&self, sink: &mut S) -> Result<(), WriteFault>
        ensures { Writes S.contents S.failure_count sink.old sink.new
            (shown_text self.now.access self.now.default) result }
    {
        self.write(sink, AclTextForm::Shown)
    }

    /// Writes the short text: the entries in canonical order with commas between them, and no line feed. It ends at the
    /// first put that fails, and tries nothing again. It takes no memory and linear time.
    pub fn write_short<S: Sink>(&self, sink: &mut S) -> Result<(), WriteFault>
        ensures { Writes S.contents S.failure_count sink.old sink.new
            (short_text self.now.access self.now.default) result }
    {
        self.write(sink, AclTextForm::Short)
    }

    /// Writes the text in a form. It ends at the first put that fails, and tries nothing again. It takes no memory and
    /// linear time.
    pub fn write<S: Sink>(&self, sink: &mut S, form: AclTextForm) -> Result<(), WriteFault>
        ensures { Writes S.contents S.failure_count sink.old sink.new
            (form_text form self.now.access self.now.default) result }
    {
        put_file(sink, form, &self.access, self.default.as_ref())?;
        Ok(())
    }

    /// Returns the text in a form, with a line feed after the short text, which `write_short` does not write. Fails
    /// only if memory runs out.
    pub fn to_text(&self, alloc: Global, form: AclTextForm) -> Result<Vec<u8>, AllocError>
        ensures { IfOk result (λ text. text.items ≡ file_text form self.now) }
    {
        let mut text = Counted::new(Vec::new(alloc));
        self.write(&mut text, form).map_err(|_| AllocError)?;
        let mut text = text.into_inner();
        match form {
            AclTextForm::Canonical | AclTextForm::Shown => {}
            AclTextForm::Short => text.push(b'\n')?,
        }
        Ok(text)
    }
}

impl PosixAcl {
    /// Writes the canonical text: one line per entry in canonical order, with the default ACL after the access ACL. It
    /// ends at the first put that fails, and tries nothing again. It takes no memory and linear time.
    ///
    /// ```rust
    /// let acl = PosixAcl::of_mode(alloc, Mode { bits: 0o640 })?;
    /// let mut sink = Counted::new(Vec::new(alloc));
    /// acl.write_canonical(&mut sink)?;
    /// let text = sink.into_inner();
    /// let wanted = b"user::rw-\ngroup::r--\nother::---\n";
    /// assert!(rt; text.as_slice() == wanted.as_slice());
    /// ```
    pub fn write_canonical<S: Sink>(&self, sink: &mut S) -> Result<(), WriteFault>
        ensures { Writes S.contents S.failure_count sink.old sink.new
            (canonical_text self.now None) result }
    {
        PosixAcl::write(self, sink, AclTextForm::Canonical)
    }

    /// Writes the canonical text with a comment after each entry that the mask limits: its effective permissions. It
    /// ends at the first put that fails, and tries nothing again. It takes no memory and linear time.
    pub fn write_shown<S: Sink>(&self, sink: &mut S) -> Result<(), WriteFault>
        ensures { Writes S.contents S.failure_count sink.old sink.new
            (shown_text self.now None) result }
    {
        PosixAcl::write(self, sink, AclTextForm::Shown)
    }

    /// Writes the short text: the entries in canonical order with commas between them, and no line feed. It ends at the
    /// first put that fails, and tries nothing again. It takes no memory and linear time.
    pub fn write_short<S: Sink>(&self, sink: &mut S) -> Result<(), WriteFault>
        ensures { Writes S.contents S.failure_count sink.old sink.new
            (short_text self.now None) result }
    {
        PosixAcl::write(self, sink, AclTextForm::Short)
    }

    /// Writes the text in a form. It ends at the first put that fails, and tries nothing again. It takes no memory and
    /// linear time.
    pub fn write<S: Sink>(&self, sink: &mut S, form: AclTextForm) -> Result<(), WriteFault>
        ensures { Writes S.contents S.failure_count sink.old sink.new
            (form_text form self.now None) result }
    {
        put_file(sink, form, self, None)?;
        Ok(())
    }
}

/// Writes a text of the ACLs of a file, and returns how many bytes it has.
#[tactic(auto, using(crate::proofs::writer::Bounds::part_under))]
fn put_file<S: Sink>(
    sink: &mut S,
    form: AclTextForm,
    access: &PosixAcl,
    default: Option<&PosixAcl>,
) -> Result<u64, WriteFault>
    ensures written { WritesFrom (S.contents sink.old) (S.contents sink.new) 0
        (form_text form access.now (option_map (λ acl. acl.now) default.entry)) result }
    ensures none_failed { OnOk result (S.failure_count sink.new ≡ S.failure_count sink.old) }
    ensures failed { OnErr result (S.failure_count sink.new ≡ one_more (S.failure_count sink.old)) }
{
    let entries = access.entries();
    let done = put_part(sink, 0, form, Part::Access, access, entries, true)?;
    match default {
        Some(acl) => {
            let entries = acl.entries();
            put_part(sink, done, form, Part::Default, acl, entries, false)
        }
        None => Ok(done),
    }
}

/// Writes the entries of a part, after `done` bytes of the text, and returns how many bytes of the text are out then.
fn put_part<S: Sink>(
    sink: &mut S,
    done: u64,
    form: AclTextForm,
    part: Part,
    acl: &PosixAcl,
    entries: &[Entry],
    is_first: bool,
) -> Result<u64, WriteFault>
    requires entries { pairs entries.now ≡ set.entries acl.now }
    requires room { done
        + length (part_out form part acl.now is_first (set.entries acl.now)) < count_limit }
    ensures written { WritesFrom (S.contents sink.old) (S.contents sink.new) done
        (part_out form part acl.now is_first (set.entries acl.now)) result }
    ensures none_failed { OnOk result (S.failure_count sink.new ≡ S.failure_count sink.old) }
    ensures failed { OnErr result (S.failure_count sink.new ≡ one_more (S.failure_count sink.old)) }
{
    let mask = acl.mask();
    let mut done = done;
    let mut is_first = is_first;
    let mut line = [0; LINE];
    for entry in entries {
        let start = put_entry(
            &mut line,
            form,
            part,
            is_first,
            *entry,
            entry.masked_by(mask),
        );
        done = put_next(sink, done, &line[start..])?;
        is_first = false;
    }
    Ok(done)
}
