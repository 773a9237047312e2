// The format of a file.
ghost use Rattle.std.specs.Prelude.{◌<◌, ◌≤◌};

// The columns of a field, and the largest weight or entry.
#[derive(Clone, Copy)]
pub(crate) struct Format {
    pub width: usize,
    pub largest: u64,
    ghost wide: { 0 < width },
    ghost top: { largest ≤ 4294967295 },
}
