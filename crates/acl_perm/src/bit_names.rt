//! Tables that name bits.
ghost use Rattle.std.specs.Prelude.{◌≡◌, ◌==◌, find, option_copied, option_map};
ghost use Rattle.acl_perm.specs.Names.{first_name};
ghost use Rattle.acl_perm.specs.internal.NameTable.{bit_names_of};

/// A row of a table: a bit, its name, and its second name if it has two.
pub struct BitName {
    pub bit: u32,
    pub name: &'static str,
    pub second: Option<&'static str>,
}

/// Returns the first name of a bit, or `None` if no row of the table has the bit.
pub fn first_name(table: &[BitName], bit: u32) -> Option<&'static str>
    ensures { option_map (λ name. name.now) result ≡ first_name (bit_names_of table.now) bit }
{
    match row_of_bit(table, bit) {
        Some(row) => Some(row.name),
        None => None,
    }
}

fn row_of_bit(table: &[BitName], bit: u32) -> Option<&BitName>
    ensures { option_copied result ≡ find (λ r. r.bit == bit) table.now }
{
    table.iter().find(|row| row.bit == bit)
}
