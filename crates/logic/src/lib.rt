// The signs (T16), links, arrows and rules of the text form. Specifications and code share these types.
#![tactic(auto)]

#[derive(Clone, Copy, Debug, PartialEq, Eq)]
pub enum Sign {
    Positive,
    Negative,
}

// The atoms of two terms (T13): (eq T U), (mem T U), (sub T U).
#[derive(Clone, Copy, Debug, PartialEq, Eq)]
pub enum Link {
    Eq,
    Mem,
    Sub,
}

// sv, si, mv, mi, st, mt (T14).
#[derive(Clone, Copy, Debug, PartialEq, Eq)]
pub enum Arrow {
    Sv,
    Si,
    Mv,
    Mi,
    St,
    Mt,
}

// The fourteen rules (T10), in the order of the rule table (R8 to R19, R25, R26).
#[derive(Clone, Copy, Debug, PartialEq, Eq)]
pub enum Rule {
    Refl,
    Res,
    Fac,
    Par,
    Acy,
    Tra,
    Inc,
    Inh,
    Inp,
    Out,
    Sca,
    Eli,
    Mer,
    Pro,
}

// The checks of a text, in the order in which they are made (V11 to V21).
#[derive(Clone, Copy, Debug, PartialEq, Eq, PartialOrd, Ord)]
pub enum Check {
    // The text has too many bytes or lines.
    Size = 1,
    // A line is not a form.
    Form = 2,
    // A line comes where it may not.
    Order = 3,
    // No symbol without terms is declared.
    Constant = 4,
    // Another limit is passed.
    Limit = 5,
    // A symbol is not declared, or has another number of terms.
    Symbol = 6,
    // A parent does not come before the step.
    Parents = 7,
    // An unused number is not 0, or a list has the wrong length.
    Numbers = 8,
    // What the step names is not as the rule's shape says.
    Shape = 9,
    // The agreement fails.
    Agreement = 10,
    // The claim is not the rule's.
    Claim = 11,
}

impl Check {
    ghost use Rattle.std.specs.Prelude.{◌≡◌, cond};
    ghost use Rattle.logic.specs.StepChecks.{check_number};

    // Its number: a name that says more than `usize::from`.
    #[tactic(auto, unfolding(crate::specs::StepChecks::check_number))]
    pub fn number(self) -> usize
        ensures { result ≡ check_number self }
    {
        self as usize
    }

    // It is passed where this holds, and fails otherwise.
    pub fn passed_if(self, holds: bool) -> Result<(), Check>
        ensures { result ≡ cond holds (Ok tt) (Err self) }
    {
        if holds { Ok(()) } else { Err(self) }
    }
}
