ghost use Rattle.std.specs.Prelude.{◌≡◌, ◌<◌, length, ◌+ℤ◌, List, [], ◌∷◌, ◌++◌, Some, None, pos};
ghost use Rattle.std.specs.Prelude.{OnOk, OnErr, IfOk, slice_set, slice_index_or};
ghost use Rattle.std.specs.BTreeMap.{get};
ghost use Rattle.fd_kinds.specs.declared.row.Row.{Row};
ghost use Rattle.fd_kinds.specs.Meaning.{stack_cmp, stack_sums, value_sum};
ghost use Rattle.fd_groups.specs.Groups.{AreSums, AreStackSums, KeepsSlots};
ghost use Rattle.fd_groups.specs.Additions.{AddsWhereFound};
ghost use Rattle.fd_groups.specs.Slots.{AreInside};

use fd_kinds::{Items, NoMemory, Share, Stack, StackSum, StackSums};
use std::alloc::Global;
use std::collections::BTreeMap;

/// Adds the value to the sum of the key, where there is one, and says whether there is. No memory
/// holds so many rows that a sum leaves 128 bits.
pub fn added<K: Ord>(sums: &mut BTreeMap<K, i128>, key: &K, value: i64) -> Result<bool, NoMemory>
    ensures { AddsWhereFound K.cmp key.now value sums.old result sums.new }
{
    match sums.get_mut(key) {
        Some(sum) => {
            *sum = sum.checked_add(i128::from(value)).ok_or(NoMemory)?;
            Ok(true)
        }
        None => Ok(false),
    }
}

/// Adds the value to the sum at a place.
fn add_to_slot(sums: &mut Vec<i128>, slot: usize, value: i64) -> Result<(), NoMemory>
    requires { slot < length sums.old.items }
    ensures ok { OnOk result (sums.new.items
        ≡ slice_set sums.old.items slot (slice_index_or sums.old.items slot (pos 0) +ℤ value)) }
    ensures err { OnErr result (sums.new.items ≡ sums.old.items) }
{
    let sum = sums[slot].checked_add(i128::from(value)).ok_or(NoMemory)?;
    sums[slot] = sum;
    Ok(())
}

/// The sum at a place.
fn sum_at(sums: &[i128], slot: usize) -> i128
    ensures { result ≡ slice_index_or sums.now slot (pos 0) }
{
    if slot < sums.len() { sums[slot] } else { 0 }
}

/// The stacks and their sums, in the order of the stacks.
fn listed_sums(
    alloc: Global,
    slots: BTreeMap<Stack, usize>,
    sums: &[i128],
) -> Result<StackSums, NoMemory>
    ensures { IfOk result (λ list.
        (rows : List Row) → AreStackSums sums.now slots rows → list ≡ stack_sums rows) }
{
    let mut list = Items::new(alloc);
    for (stack, slot) in slots {
        list.push(StackSum {
            stack,
            value: sum_at(sums, slot),
        })?;
    }
    Ok(list)
}

/// The sums of the values of rows, for each stack and of all. Each stack has the place of its sum.
/// Never write the fields: add rows.
#[derive(Drop)]
pub struct Sums {
    pub slots: BTreeMap<Stack, usize>,
    pub sums: Vec<i128>,
    pub total: i128,
    ghost inside: { AreInside slots sums.items },
}

impl Sums {
    pub fn new(alloc: Global) -> Sums
        ensures { AreSums result.slots result.sums.items result.total [] }
    {
        Sums {
            slots: BTreeMap::new(alloc),
            sums: Vec::new(alloc),
            total: 0,
        }
    }

    /// Adds the value of a row whose stack has its sum at the place.
    pub fn add_known(&mut self, slot: usize, value: i64) -> Result<(), NoMemory>
        requires { slot < length self.old.sums.items }
        ensures slots { self.new.slots ≡ self.old.slots }
        ensures ok { OnOk result (
            (rows : List Row) → (row : Row)
            → get stack_cmp self.old.slots row.stack ≡ Some slot → row.value ≡ value
            → AreSums self.old.slots self.old.sums.items self.old.total rows
            → AreSums self.new.slots self.new.sums.items self.new.total (rows ++ row ∷ [])) }
        ensures err { OnErr result (
            (rows : List Row) → AreSums self.old.slots self.old.sums.items self.old.total rows
            → AreSums self.new.slots self.new.sums.items self.new.total rows) }
    {
        let total = self.total.checked_add(i128::from(value)).ok_or(NoMemory)?;
        add_to_slot(&mut self.sums, slot, value)?;
        self.total = total;
        Ok(())
    }

    /// Adds the value of a row whose stack has no sum, and answers the place of its new one.
    fn add_new(&mut self, stack: &Stack, value: i64) -> Result<usize, NoMemory>
        requires { get stack_cmp self.old.slots stack.now ≡ None }
        ensures slot { IfOk result (λ slot. get stack_cmp self.new.slots stack.now ≡ Some slot) }
        ensures kept { KeepsSlots self.old.slots self.new.slots }
        ensures ok { OnOk result (
            (rows : List Row) → (row : Row) → row.stack ≡ stack.now → row.value ≡ value
            → AreSums self.old.slots self.old.sums.items self.old.total rows
            → AreSums self.new.slots self.new.sums.items self.new.total (rows ++ row ∷ [])) }
        ensures err { OnErr result (
            (rows : List Row) → AreSums self.old.slots self.old.sums.items self.old.total rows
            → AreSums self.new.slots self.new.sums.items self.new.total rows) }
    {
        let total = self.total.checked_add(i128::from(value)).ok_or(NoMemory)?;
        let copy = stack.share()?;
        let slot = self.sums.len();
        self.sums.push(i128::from(value))?;
        self.slots.insert(copy, slot)?;
        self.total = total;
        Ok(slot)
    }

    /// The place of the stack's sum, where it has one.
    fn slot_of(&self, stack: &Stack) -> Option<usize>
        ensures { result ≡ get stack_cmp self.now.slots stack.now }
    {
        self.slots.get(stack).copied()
    }

    /// Adds the value of a row with this stack, and answers the place of the stack's sum.
    pub fn add(&mut self, stack: &Stack, value: i64) -> Result<usize, NoMemory>
        ensures slot { IfOk result (λ slot. get stack_cmp self.new.slots stack.now ≡ Some slot) }
        ensures kept { KeepsSlots self.old.slots self.new.slots }
        ensures ok { OnOk result (
            (rows : List Row) → (row : Row) → row.stack ≡ stack.now → row.value ≡ value
            → AreSums self.old.slots self.old.sums.items self.old.total rows
            → AreSums self.new.slots self.new.sums.items self.new.total (rows ++ row ∷ [])) }
        ensures err { OnErr result (
            (rows : List Row) → AreSums self.old.slots self.old.sums.items self.old.total rows
            → AreSums self.new.slots self.new.sums.items self.new.total rows) }
    {
        match self.slot_of(stack) {
            Some(slot) => {
                self.add_known(slot, value)?;
                Ok(slot)
            }
            None => self.add_new(stack, value),
        }
    }

    /// The sums as a list, and the total.
    pub fn into_list(self, alloc: Global) -> Result<(StackSums, i128), NoMemory>
        ensures { IfOk result (λ list.
            (rows : List Row) → AreSums self.slots self.sums.items self.total rows
            → (list.0 ≡ stack_sums rows) × (list.1 ≡ value_sum rows)) }
    {
        let Sums { slots, sums, total } = self;
        Ok((listed_sums(alloc, slots, sums.as_slice())?, total))
    }
}
