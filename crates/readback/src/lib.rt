// Reads a Value Change Dump back into who ran in each slice, or tells how far it is one.
#![tactic(auto)]

mod lines; // time lines and value lines

ghost use Rattle.std.specs.Prelude.{◌≡◌, ◌≤◌, length, take, nat_le};
ghost use Rattle.basis.specs.Bytes.{at, overwrite};
ghost use Rattle.basis.specs.Choose.{choose};
ghost use Rattle.vcd.specs.Follows.{beginning};
ghost use Rattle.readback.specs.Reads.{Reads};
ghost use Rattle.readback.specs.Shapes.{Shared, Filled, ReadAside};

// Why a file is the form of no run: so long is the longest beginning that it shares with one that is.
#[derive(Clone, Copy, PartialEq, Eq)]
pub struct Deviation {
    pub place: usize,
}

// As many bytes as a file begins with of a text.
fn shared(text: &[u8], file: &[u8]) -> usize
    ensures { Shared text.now file.now result }
{
    for (i, byte) in text.iter().enumerate() {
        if i == file.len() || file[i] != *byte {
            return i;
        }
    }
    text.len()
}

// Writes one entry for the slices that a change lasts.
fn fill(aside: &mut [u8; 4096], from: u32, to: u32, entry: u32)
    requires { (from ≤ to) × (to ≤ 4096) × (entry ≤ 16) × (length aside.old ≡ 4096) }
    ensures { Filled aside.old from to entry aside.new }
{
    aside[from as usize..to as usize].fill(entry as u8);
}

// Reads what follows the beginning, change by change: a value line, and the time line of the slice up to which it lasts. No more
// follows if that is the end of the file, and none can follow slice 4,096. Answers how many slices the run has.
fn read_changes(file: &[u8], aside: &mut [u8; 4096]) -> Result<usize, Deviation>
    requires { (take 115 file.now ≡ beginning) × (length aside.old ≡ 4096) }
    ensures { ReadAside file.now aside.new result }
{
    let mut at = 115;
    let mut t = 0;
    let mut before = 17; // a number and no `None`: `no_entry` of the text, which a first entry has to differ from
    while t < 4096 {
        let entry = lines::value_at(file, at, before)?;
        let next = lines::time_at(file, at + 9, t + 1)?;
        fill(aside, t, next, entry);
        before = entry;
        t = next;
        at += 15;
        if at == file.len() {
            return Ok(t as usize);
        }
    }
    Err(Deviation { place: at })
}

// Copies the entries of a run, if there is room for all of them.
fn copy(aside: &[u8; 4096], count: usize, out: &mut [u8])
    requires { count ≤ 4096 }
    ensures { out.new ≡ choose (nat_le count (length out.old)) (overwrite (at aside.now) count out.old) out.old }
{
    if count <= out.len() {
        out[..count].copy_from_slice(&aside[..count]);
    }
}

// Reads a file back into the lent bytes, if there is room for the whole run, and answers how many slices it has. Only at the end of
// the file is it known that there is one, so the entries are written aside.
pub fn read(file: &[u8], out: &mut [u8]) -> Result<usize, Deviation>
    ensures { Reads file.now out.old out.new result }
{
    let begun = shared(
        b"$timescale 1 us $end\n$scope module ozhmandil $end\n$var wire 5 ! task $end\n$upscope $end\n$enddefinitions $end\n#0000\n",
        file,
    );
    if begun < 115 {
        return Err(Deviation { place: begun });
    }
    let mut aside = [0u8; 4096];
    let count = read_changes(file, &mut aside)?;
    copy(&aside, count, out);
    Ok(count)
}
