// The key table, and its least broken row.
ghost use Rattle.std.specs.Prelude.{◌≡◌, ◌<◌, ◌^◌, map, take, drop, option_map, IfSome};
ghost use Rattle.toml.specs.View.{table_view};
ghost use Rattle.image_text.specs.Unknown as spec;
ghost use Rattle.image_text.specs.Rows.{key_rows, first_broken as spec_first_broken};
ghost use Rattle.image_text.specs.Rows.{version_of as spec_version_of};
ghost use Rattle.image_text.specs.Models.{row_model, broken_model};

use crate::kinds::{Field, Kind, Place, Simple, fits_one};
use crate::lookup::get;
use crate::rows::{Broken, Row, first_broken};
use crate::unknown::all_known;
use toml::Table;

/// The row that any other key breaks.
const OTHER_KEYS: u8 = 26;

macro_rules! integer {
    ($key:literal) => {
        Field {
            key: $key,
            simple: Some(Simple::Integer),
        }
    };
}

macro_rules! text {
    ($key:literal) => {
        Field {
            key: $key,
            simple: Some(Simple::Text),
        }
    };
}

// A key that has a row of its own.
macro_rules! of_own_row {
    ($key:literal) => {
        Field {
            key: $key,
            simple: None,
        }
    };
}

macro_rules! row {
    ($number:literal, $since:literal, $place:ident, $needed:literal, $key:literal, $kind:expr) => {
        Row {
            number: $number,
            since: $since,
            place: Place::$place,
            needed: $needed,
            key: $key,
            kind: $kind,
        }
    };
}

macro_rules! needs {
    ($number:literal, $place:ident, $key:literal, $kind:expr) => {
        row!($number, 1, $place, true, $key, $kind)
    };
}

macro_rules! may_have {
    ($number:literal, $place:ident, $key:literal, $kind:expr) => {
        row!($number, 1, $place, false, $key, $kind)
    };
}

// A key of the second version alone.
macro_rules! may_have_2 {
    ($number:literal, $place:ident, $key:literal, $kind:expr) => {
        row!($number, 2, $place, false, $key, $kind)
    };
}

const CACHE_FIELDS: [Field<'static>; 3] = [integer!("sets"), integer!("ways"), text!("policy")];

const LEVEL2_FIELDS: [Field<'static>; 4] = [
    integer!("sets"),
    integer!("ways"),
    text!("policy"),
    of_own_row!("back"),
];

const COST_FIELDS: [Field<'static>; 9] = [
    integer!("base"),
    integer!("l1"),
    integer!("l2"),
    integer!("mem"),
    integer!("wb"),
    integer!("tlb"),
    integer!("mispredict"),
    integer!("trap"),
    integer!("flush"),
];

const MULDIV_FIELDS: [Field<'static>; 2] = [integer!("mul"), integer!("div")];

static KEY_ROWS: [Row<'static>; 35] = [
    needs!(1, Top, "frames", Kind::One(Simple::Integer)),
    needs!(2, Top, "shared", Kind::One(Simple::Integer)),
    needs!(3, Top, "line", Kind::One(Simple::Integer)),
    needs!(4, Top, "l1i", Kind::Fields(&CACHE_FIELDS)),
    needs!(5, Top, "l1d", Kind::Fields(&CACHE_FIELDS)),
    needs!(6, Top, "l2", Kind::Fields(&LEVEL2_FIELDS)),
    needs!(7, Top, "tlb", Kind::Fields(&CACHE_FIELDS)),
    needs!(8, Top, "predictor", Kind::One(Simple::Integer)),
    needs!(9, Top, "costs", Kind::Fields(&COST_FIELDS)),
    needs!(10, Top, "domain", Kind::Array(Simple::Table)),
    needs!(11, Domain, "name", Kind::One(Simple::Text)),
    needs!(12, Domain, "colours", Kind::Array(Simple::Integer)),
    needs!(
        13,
        Domain,
        "entry",
        Kind::One(Simple::Within(0, 4_294_967_295))
    ),
    needs!(14, Domain, "segment", Kind::SomeTables(16)),
    needs!(15, Segment, "page", Kind::One(Simple::Within(0, 1_048_575))),
    needs!(16, Segment, "pages", Kind::One(Simple::Within(1, 64))),
    needs!(17, Segment, "rights", Kind::One(Simple::Text)),
    needs!(18, Segment, "hex", Kind::One(Simple::Text)),
    may_have!(19, Domain, "caps", Kind::Array(Simple::Text)),
    may_have!(20, Domain, "lines", Kind::Array(Simple::Integer)),
    may_have!(21, Domain, "moments", Kind::Pairs),
    needs!(22, Top, "schedule", Kind::Array(Simple::Table)),
    needs!(23, Entry, "domain", Kind::One(Simple::Integer)),
    needs!(24, Entry, "length", Kind::One(Simple::Integer)),
    needs!(25, Entry, "pad", Kind::One(Simple::Integer)),
    may_have!(27, Level2, "back", Kind::One(Simple::Truth)),
    may_have!(28, Top, "version", Kind::One(Simple::Within(1, 2))),
    may_have_2!(29, Domain, "calls", Kind::Array(Simple::Integer)),
    may_have!(30, Top, "history", Kind::One(Simple::Integer)),
    may_have!(31, Entry, "hart", Kind::One(Simple::Integer)),
    may_have!(32, Top, "mail", Kind::Array(Simple::Table)),
    needs!(33, Mail, "from", Kind::One(Simple::Integer)),
    needs!(34, Mail, "to", Kind::One(Simple::Integer)),
    may_have!(37, Top, "muldiv", Kind::Fields(&MULDIV_FIELDS)),
    may_have!(38, Top, "targets", Kind::One(Simple::Integer)),
];

/// The key table. For the prover it stands in a function of its own: its rows
/// are compared with the definitions' once.
#[tactic(auto, unfolding(crate::specs::Rows::key_rows, crate::specs::Rows::cache_fields, crate::specs::Rows::level2_fields, crate::specs::Rows::cost_fields, crate::specs::Rows::muldiv_fields))]
fn key_rows() -> &'static [Row<'static>]
    ensures rows { map row_model result.now ≡ key_rows }
{
    &KEY_ROWS
}

/// The version of the format that a table says, 1 or 2. One that is neither
/// breaks its own row; till that is told, all keys are known.
pub fn version_of(table: &Table) -> u8
    ensures value { result ≡ spec_version_of (table_view table.now) }
{
    match get(table, "version") {
        Some(value) => if fits_one(Simple::Within(1, 1), value) {
            1
        } else {
            2
        },
        None => 1,
    }
}

fn first_rows(version: u8, table: &Table) -> Option<Broken>
    ensures value { option_map broken_model result
        ≡ spec_first_broken version (take 25 key_rows) (table_view table.now) }
    ensures small { IfSome result (λ broken. broken.found < 2 ^ 63) }
{
    first_broken(version, &key_rows()[..25], table)
}

fn later_rows(version: u8, table: &Table) -> Option<Broken>
    ensures value { option_map broken_model result
        ≡ spec_first_broken version (drop 25 key_rows) (table_view table.now) }
    ensures small { IfSome result (λ broken. broken.found < 2 ^ 63) }
{
    first_broken(version, &key_rows()[25..], table)
}

fn no_other_keys(version: u8, table: &Table) -> bool
    ensures value { result ≡ spec.all_known version key_rows (table_view table.now) }
{
    all_known(version, key_rows(), table)
}

/// The least row that the image's table breaks.
#[tactic(auto, unfolding(crate::specs::Unknown::broken_key))]
pub fn broken_key(table: &Table) -> Option<Broken>
    ensures value { option_map broken_model result ≡ spec.broken_key (table_view table.now) }
    ensures small { IfSome result (λ broken. broken.found < 2 ^ 63) }
{
    let version = version_of(table);
    if let Some(broken) = first_rows(version, table) {
        return Some(broken);
    }
    if !no_other_keys(version, table) {
        return Some(Broken {
            row: OTHER_KEYS,
            found: 0,
        });
    }
    later_rows(version, table)
}
