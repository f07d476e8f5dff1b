// Standard output. Only this module makes a `Shown` and reads its fields, so its count is of bytes that were given to `show`.
ghost use Rattle.std.specs.Prelude.{◌≡◌, ◌+◌, ◌≤◌, length, take, drop};
ghost use Rattle.desk.specs.Session.{session};

// How many bytes standard output was given, and whether a write of them failed.
#[derive(Clone, Copy)]
pub(crate) struct Shown {
    told: usize,
    failed: bool,
}

pub(crate) fn nothing() -> Shown
    ensures { result.told ≡ 0 }
{
    Shown {
        told: 0,
        failed: false,
    }
}

// Writes the first n bytes of `out`, unless a write failed before. They are the session's next n, after those that were given before.
pub(crate) fn show(rt: &impl Print, input: &[u8], shown: Shown, out: &[u8], n: usize) -> Shown
    requires { (n ≤ length out.now) × (take n out.now ≡ take n (drop shown.told (session input.now))) × (shown.told + n ≤ 1099511627776) }
    ensures { result.told ≡ shown.told + n }
{
    let told = shown.told + n;
    if shown.failed {
        return Shown { told, failed: true };
    }
    let written = rt.write_all(&out[0..n]);
    Shown {
        told,
        failed: written.is_err(),
    }
}

pub(crate) fn has_failed(shown: Shown) -> bool
    ensures { result ≡ shown.failed }
{
    shown.failed
}
