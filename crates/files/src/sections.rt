// Document 01, "A submission file": the form of each section's rows, and the first of its open days.
ghost use Rattle.std.specs.Prelude.{◌≡◌, ◌≤◌};
ghost use Rattle.rulebook.specs.ReferencePrice.{most_facilities};
ghost use Rattle.rulebook.specs.Sections.{per_interval, kind_of};
ghost use Rattle.rulebook.specs.Judging.{open_from};
ghost use Rattle.files.specs.Forms.{row_form};

use rulebook::units::{MOST_FACILITIES, TENDERS};
use rulebook::{Kind, Limits, Section};

// The bytes of a row's account, which an NCC row lacks, and of its tranche or facility count, and the least and the most such count.
#[derive(Clone, Copy)]
pub struct RowForm {
    pub account_bytes: usize,
    pub count_bytes: usize,
    pub least_count: usize,
    pub most_count: usize,
}

// That of a section's rows.
pub fn row_form(section: Section) -> RowForm
    ensures { (result ≡ row_form section) × (result.account_bytes ≤ 1) × (result.count_bytes ≤ 1) }
{
    match section {
        Section::Vesting => RowForm {
            account_bytes: 1,
            count_bytes: 1,
            least_count: 0,
            most_count: TENDERS,
        },
        Section::Meter => RowForm {
            account_bytes: 1,
            count_bytes: 1,
            least_count: 1,
            most_count: MOST_FACILITIES,
        },
        Section::Residual => RowForm {
            account_bytes: 1,
            count_bytes: 0,
            least_count: 0,
            most_count: 0,
        },
        Section::Ncc => RowForm {
            account_bytes: 0,
            count_bytes: 0,
            least_count: 0,
            most_count: 0,
        },
    }
}

// Three tables by section that take an argument, as matches.

// How many values a row has for an interval.
pub fn per_interval(section: Section, count: usize) -> usize
    requires { count ≤ most_facilities }
    ensures { (result ≡ per_interval section count) × (result ≤ 10) }
{
    match section {
        Section::Vesting => 2 + 2 * count,
        Section::Meter => 2 * count,
        Section::Residual => 4,
        Section::Ncc => 1,
    }
}

// What value k of a row is.
pub fn kind_of(section: Section, k: usize) -> Kind
    ensures { result ≡ kind_of section k }
{
    match section {
        Section::Vesting => if k % 2 == 0 {
            Kind::Quantity
        } else {
            Kind::Price
        },
        Section::Meter => if k % 2 == 0 {
            Kind::Price
        } else {
            Kind::Injection
        },
        Section::Residual => if k % 4 < 2 {
            Kind::Quantity
        } else {
            Kind::Price
        },
        Section::Ncc => Kind::Load,
    }
}

// The first open day of a section's rows.
pub fn open_from(limits: Limits, section: Section) -> usize
    ensures { result ≡ open_from limits section }
{
    match section {
        Section::Vesting | Section::Meter => limits.current,
        Section::Residual => limits.earliest,
        Section::Ncc => limits.earliest,
    }
}
