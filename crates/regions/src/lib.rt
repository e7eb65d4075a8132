// The regions of the machine's memory, and what is done with each of them over the whole memory.
#![tactic(auto)]

pub mod cells;
pub mod fields;
pub mod lines;
pub mod texts;

ghost use Rattle.std.specs.Prelude.{◌≡◌, ℕ, ◌+◌, ◌*◌, ◌<◌, ◌≤◌, length, slice_index, slice_set};
ghost use Rattle.regions.specs.Parts.{parts, with_code};

// How many words the memory has.
pub const MEMORY: usize = 262_144;

// The machine's memory, which is lent to it.
pub type Memory = [u64; MEMORY];

const CODE: usize = 64;

const CODE_END: usize = 12_416;

fn word(region: &[u64], i: usize) -> u64
    ensures { result ≡ slice_index region.now i }
{
    region.get(i).copied().unwrap_or(0)
}

fn put(region: &mut [u64], i: usize, v: u64)
    ensures { region.new ≡ slice_set region.old i v }
{
    if i < region.len() {
        region[i] = v;
    }
}

// The word of code at a place; 0 behind the end.
pub fn code_at(mem: &Memory, i: usize) -> u64
    ensures { result ≡ slice_index (parts mem.now).code i }
{
    word(&mem[CODE..CODE_END], i)
}

pub fn set_code(mem: &mut Memory, i: usize, v: u64)
    ensures { parts mem.new ≡ with_code (parts mem.old) (slice_set (parts mem.old).code i v) }
{
    put(&mut mem[CODE..CODE_END], i, v);
}
