ghost use Rattle.std.specs.Prelude.{◌≡◌, max, Some};
ghost use Rattle.machinst.specs.Cases.{call_number, calls_number, class_of_call, terminator_number};
ghost use Rattle.machinst.specs.Names.{call_name, terminator_name};

use std::fmt;

/// How an instruction ends its block.
#[derive(Clone, Copy, Debug, PartialEq, Eq)]
pub enum MachTerminator {
    None,
    Ret,
    /// A tail call.
    RetCall,
    Branch,
}

impl fmt::Display for MachTerminator {
    ghost output = { λ t. Some (terminator_name (terminator_number t)) };

    fn fmt<W: fmt::Write>(&self, f: &mut fmt::Formatter<W>) -> fmt::Result {
        match self {
            MachTerminator::None => write!(f, "none"),
            MachTerminator::Ret => write!(f, "ret"),
            MachTerminator::RetCall => write!(f, "retcall"),
            MachTerminator::Branch => write!(f, "branch"),
        }
    }
}

/// What kind of call an instruction is.
#[derive(Clone, Copy, Debug, PartialEq, Eq)]
pub enum CallType {
    None,
    Regular,
    TailCall,
}

impl fmt::Display for CallType {
    ghost output = { λ c. Some (call_name (call_number c)) };

    fn fmt<W: fmt::Write>(&self, f: &mut fmt::Formatter<W>) -> fmt::Result {
        match self {
            CallType::None => write!(f, "none"),
            CallType::Regular => write!(f, "regular"),
            CallType::TailCall => write!(f, "tailcall"),
        }
    }
}

/// What calls a function makes.
#[derive(Clone, Copy, Debug, PartialEq, Eq)]
pub enum FunctionCalls {
    None,
    /// Tail calls and no regular one.
    TailOnly,
    /// At least one regular call.
    Regular,
}

impl FunctionCalls {
    /// Takes one more instruction's call into account.
    pub fn update(&mut self, call_type: CallType)
        ensures { calls_number self.new ≡ max (calls_number self.old) (calls_number (class_of_call call_type)) }
    {
        *self = match (*self, call_type) {
            (current, CallType::None) => current,
            (_, CallType::Regular) => FunctionCalls::Regular,
            (FunctionCalls::None, CallType::TailCall) => FunctionCalls::TailOnly,
            (current, CallType::TailCall) => current,
        };
    }
}
