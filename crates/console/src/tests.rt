// The driving loop over a world in memory.
ghost use Rattle.std.specs.Prelude.{◌≡◌, ◌++◌};
ghost use Rattle.machine.specs.Drive.{Account};

use super::*;
use std::alloc::AllocError;

// A world in memory: a list that is given in pieces of at most `cut` bytes, and what was shown.
#[derive(Drop)]
struct Tape<'a> {
    list: &'a [u8],
    cut: usize,
    shown: Vec<u8>,
}

impl World for Tape<'_> {
    type Error = AllocError;

    ghost account = { record { takes = λ _ _ _. Unit {0}; ends = λ _ _. Unit {0}; shows = λ s row t. t.shown.items ≡ s.shown.items ++ row } };

    fn piece(&mut self, into: &mut [u8]) -> Result<Option<usize>, AllocError> {
        let n = self.list.len().min(self.cut).min(into.len());
        if n == 0 {
            return Ok(None);
        }
        into[0..n].copy_from_slice(&self.list[0..n]);
        self.list = &self.list[n..];
        Ok(Some(n))
    }

    fn show(&mut self, row: &[u8]) -> Result<(), AllocError> {
        self.shown.extend_from_slice(row)
    }
}

#[test]
fn nothing_is_known_yet(rt: HostRuntime) {
    let mut tape = Tape {
        list: b"ab 3\n",
        cut: 2,
        shown: Vec::new(rt.alloc()),
    };
    assert_eq!(rt;
        drive(&mut tape, rt.alloc(), b"{ print; }"),
        Err(Failure::Refused(2))
    );
    assert_eq!(rt; tape.shown.len(), 0);
}

// A caller that asks again is told again, and the file isn't passed over.
#[test]
fn a_file_that_is_missing_stays_the_next(rt: HostRuntime) {
    let name = String::from_str(rt.alloc(), "missing").expect(&rt, "there is room");
    let names = vec![in rt.alloc(); name].expect(&rt, "there is room");
    let mut console = Console::new(&rt, names);
    let mut piece = [0u8; 8];
    assert_eq!(rt; console.piece(&mut piece), Err(Trouble::Opening));
    assert_eq!(rt; console.piece(&mut piece), Err(Trouble::Opening));
}
