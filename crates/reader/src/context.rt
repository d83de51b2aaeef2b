// What a line is read by.
ghost use Rattle.std.specs.Prelude.{◌≡◌, ◌+◌, MatchOption};
ghost use Rattle.logic.specs.Each.{declares};

// The table of the symbols' argument counts, and how many terms deep terms may nest.
#[derive(Clone, Copy, Debug, PartialEq, Eq)]
pub struct Context<'t> {
    pub table: &'t [u8],
    pub depth: usize,
}

impl<'t> Context<'t> {
    // The same one term deeper, if terms may nest further.
    pub fn deeper(self) -> Option<Self>
        ensures { MatchOption result (self.entry.depth ≡ 0)
            (λ inner. (inner.depth + 1 ≡ self.entry.depth) × (inner.table.now ≡ self.entry.table.now)) }
    {
        let depth = self.depth.checked_sub(1)?;
        Some(Context { depth, ..self })
    }

    // Whether symbol f takes n terms.
    #[tactic(auto, using(crate::proofs::Declared::declares_past, crate::proofs::Declared::declares_at))]
    pub fn declares(self, f: usize, n: usize) -> bool
        ensures { result ≡ declares self.entry.table.now f n }
    {
        self.table
            .get(f)
            .is_some_and(|taken| usize::from(*taken) == n)
    }
}
