// The sixteen registers.
ghost use Rattle.std.specs.Prelude.{◌≡◌, min};
ghost use Rattle.text_lexical.specs.Promised.{index_of};

// How many there are.
pub const REGISTERS: u8 = 16;

#[derive(Clone, Copy, PartialEq)]
pub enum Register {
    R0,
    R1,
    R2,
    R3,
    R4,
    R5,
    R6,
    R7,
    R8,
    R9,
    R10,
    R11,
    R12,
    R13,
    R14,
    R15,
}

// The register's number, 0 to 15, by the library's trait.
impl From<Register> for u8 {
    fn from(register: Register) -> u8
        ensures { result ≡ index_of register }
    {
        register as u8
    }
}

impl Register {
    // The register with a number; there is none above R15. Each number is answered, where a `TryFrom` would make those who read a field of four
    // bits ask again.
    pub fn from_index(index: u8) -> Register
        ensures { index_of result ≡ min index 15 }
    {
        match index {
            0 => Register::R0,
            1 => Register::R1,
            2 => Register::R2,
            3 => Register::R3,
            4 => Register::R4,
            5 => Register::R5,
            6 => Register::R6,
            7 => Register::R7,
            8 => Register::R8,
            9 => Register::R9,
            10 => Register::R10,
            11 => Register::R11,
            12 => Register::R12,
            13 => Register::R13,
            14 => Register::R14,
            _ => Register::R15,
        }
    }
}
