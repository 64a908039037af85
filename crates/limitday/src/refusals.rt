// What the library refuses, by its code and place.
use day::OpenFault;
use promise::RunFault;
use reference::fault::ReferenceFault;
use roster::fault::RosterFault;
use rules::RuleFault;
use tape::fault::{TapeFault, WriteFault};
use words::Refusal;

// Kept: with default bodies each impl would still hand on its fault's own code or place, in more lines, and the project
// refuses impls that a macro writes.
pub trait Refused {
    fn refusal(&self) -> Refusal;
}

impl Refused for TapeFault {
    fn refusal(&self) -> Refusal {
        Refusal {
            code: self.code(),
            place: self.place(),
        }
    }
}

impl Refused for WriteFault {
    fn refusal(&self) -> Refusal {
        Refusal {
            code: self.code(),
            place: self.place(),
        }
    }
}

impl Refused for ReferenceFault {
    fn refusal(&self) -> Refusal {
        Refusal {
            code: self.code(),
            place: self.place(),
        }
    }
}

impl Refused for RunFault {
    fn refusal(&self) -> Refusal {
        Refusal {
            code: self.code(),
            place: self.place(),
        }
    }
}

impl Refused for RuleFault {
    fn refusal(&self) -> Refusal {
        Refusal {
            code: self.code(),
            place: None,
        }
    }
}

impl Refused for RosterFault {
    fn refusal(&self) -> Refusal {
        Refusal {
            code: self.code(),
            place: None,
        }
    }
}

impl Refused for OpenFault {
    fn refusal(&self) -> Refusal {
        Refusal {
            code: self.code(),
            place: None,
        }
    }
}

impl Refused for day::Refusal {
    fn refusal(&self) -> Refusal {
        Refusal {
            code: self.code(),
            place: None,
        }
    }
}
