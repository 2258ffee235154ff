//! Marks: which of some values or types are of type index.
ghost use Rattle.std.specs.Prelude.{◌≡◌, ◌≤◌, length};
ghost use Rattle.patterns_soundness.specs.base.Lowering.{any, marked};

/// Returns whether any mark is set.
pub(crate) fn any(marks: &[bool]) -> bool
    ensures { result ≡ any marks.now }
{
    let mut rest = marks;
    'marks: while let [mark, tail @ ..] = rest {
        if *mark {
            return true;
        }
        rest = tail;
    }
    false
}

/// Returns the number of set marks.
pub(crate) fn marked(marks: &[bool]) -> u32
    requires { length marks.now ≤ 256 }
    ensures count { result ≡ marked marks.now }
    ensures few { result ≤ length marks.now }
{
    let mut count = 0;
    let mut rest = marks;
    'marks: while let [mark, tail @ ..] = rest {
        count += u32::from(*mark);
        rest = tail;
    }
    count
}
