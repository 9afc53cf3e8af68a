//! Laws of the definitions: what follows for the slots after each change.
ghost use Rattle.std.specs.Prelude.{◌≡◌, ◌≢◌, ℕ, ◌+◌, ◌/◌, ◌^◌, ◌<◌, true, false, Option, Some, None, length};
ghost use Rattle.std.specs.List.{filter_map};
ghost use Rattle.cap_table.specs.declared.Cap.{Cap};
ghost use Rattle.cap_table.specs.Slots.{
  Slots,
  cap_at,
  page_of,
  table_of,
  line_of,
  mapped_at,
  with_cap,
  empty_slots,
  alike,
  copied,
  region_of,
  in_use,
  revoked,
  revoked_count,
  revoked_entries,
};
ghost use Rattle.cap_table.specs.Owning.{IsUnnamed};
ghost use Rattle.cap_table.specs.Words.{IsAlike, IsInUse, filled_count, emptied_slots};

/// At first each slot is empty, and none names a frame; a frame that no slot names is named where a
/// slot is changed to name it, and not else.
pub fn naming()
    ensures empty { (i : ℕ) → cap_at empty_slots i ≡ None }
    ensures none { (frame : ℕ) → IsUnnamed empty_slots frame }
    ensures others { (slots : Slots) (slot frame : ℕ) (c : Option Cap) → slot < length slots
        → IsUnnamed slots frame → page_of c ≢ Some frame → table_of c ≢ Some frame
        → IsUnnamed (with_cap slots slot c) frame }
{}

/// A copy names the same page or line, and is mapped nowhere.
pub fn copying()
    ensures page { (c : Option Cap) (rights : ℕ) → page_of (copied c rights) ≡ page_of c }
    ensures line { (c : Option Cap) (rights : ℕ) → line_of (copied c rights) ≡ line_of c }
    ensures unmapped { (c : Option Cap) (rights : ℕ) → mapped_at (copied c rights) ≡ None }
{}

/// Two capabilities are alike exactly where both name one page, or one line.
pub fn likeness()
    ensures only { (c d : Option Cap) → alike c d ≡ true → IsAlike c d }
    ensures each { (c d : Option Cap) → IsAlike c d → alike c d ≡ true }
{}

/// A slot is in use exactly where its table is installed and some page is
/// mapped in the same 4 MiB.
pub fn tables_in_use()
    ensures only { (slots : Slots) (slot : ℕ) → in_use slots slot ≡ true → IsInUse slots slot }
    ensures each { (slots : Slots) (slot : ℕ) → IsInUse slots slot → in_use slots slot ≡ true }
    ensures same { (a b : ℕ) → a < 2 ^ 32 → b < 2 ^ 32 → region_of a ≡ region_of b
        → a / 4194304 ≡ b / 4194304 }
    ensures region { (a b : ℕ) → a / 4194304 ≡ b / 4194304 → region_of a ≡ region_of b }
{}

/// After a revocation no other slot is alike; the slot itself, and each that
/// isn't alike, is as it was; the count is that of the slots emptied; and the
/// entries are the addresses noted in them, in the order of the slots.
pub fn revoking()
    ensures none { (slots : Slots) (slot i : ℕ) → i ≢ slot
        → alike (cap_at (revoked slots slot) slot) (cap_at (revoked slots slot) i) ≡ false }
    ensures itself { (slots : Slots) (slot : ℕ)
        → cap_at (revoked slots slot) slot ≡ cap_at slots slot }
    ensures others { (slots : Slots) (slot i : ℕ)
        → alike (cap_at slots slot) (cap_at slots i) ≡ false
        → cap_at (revoked slots slot) i ≡ cap_at slots i }
    ensures count { (slots : Slots) (slot : ℕ)
        → filled_count (revoked slots slot) + revoked_count slots slot ≡ filled_count slots }
    ensures number { (slots : Slots) (slot : ℕ)
        → revoked_count slots slot ≡ length (emptied_slots slots slot) }
    ensures entries { (slots : Slots) (slot : ℕ) → revoked_entries slots slot
        ≡ filter_map (λ i. mapped_at (cap_at slots i)) (emptied_slots slots slot) }
{}
