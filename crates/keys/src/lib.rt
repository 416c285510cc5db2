// The passwords and the UID.
#![tactic(auto)]

ghost use Rattle.std.specs.Prelude.{◌≡◌};
ghost use Rattle.keys.specs.Keys.{password_at, uid_at, uid_byte, radio_password, with_radio_password, with_i2c_password, fresh_passwords};

// Eight bytes, in the order in which they arrive.
#[derive(Clone, Copy, PartialEq, Eq)]
pub struct Password {
    pub bytes: [u8; 8],
}

// Radio passwords 0 to 3 and the I2C password.
#[derive(Clone, Copy)]
pub struct Passwords {
    pub rf0: Password,
    pub rf1: Password,
    pub rf2: Password,
    pub rf3: Password,
    pub i2c: Password,
}

// The UID, lowest byte first.
#[derive(Clone, Copy, PartialEq, Eq)]
pub struct Uid {
    pub bytes: [u8; 8],
}

impl Password {
    pub fn at(s: &[u8], at: usize) -> Password
        ensures { result ≡ password_at s.now at }
    {
        Password {
            bytes: parts::eight_at(s, at),
        }
    }
}

impl Passwords {
    pub fn fresh() -> Passwords
        ensures { result ≡ fresh_passwords }
    {
        let zero = Password { bytes: [0; 8] };
        Passwords {
            rf0: zero,
            rf1: zero,
            rf2: zero,
            rf3: zero,
            i2c: zero,
        }
    }

    pub fn radio(self, n: u8) -> Password
        ensures { result ≡ radio_password self n }
    {
        match n {
            0 => self.rf0,
            1 => self.rf1,
            2 => self.rf2,
            _ => self.rf3,
        }
    }

    pub fn with_radio(self, n: u8, x: Password) -> Passwords
        ensures { result ≡ with_radio_password n x self }
    {
        match n {
            0 => Passwords { rf0: x, ..self },
            1 => Passwords { rf1: x, ..self },
            2 => Passwords { rf2: x, ..self },
            3 => Passwords { rf3: x, ..self },
            _ => self,
        }
    }

    pub fn with_i2c(self, x: Password) -> Passwords
        ensures { result ≡ with_i2c_password x self }
    {
        Passwords { i2c: x, ..self }
    }
}

impl Uid {
    pub fn at(s: &[u8], at: usize) -> Uid
        ensures { result ≡ uid_at s.now at }
    {
        Uid {
            bytes: parts::eight_at(s, at),
        }
    }

    pub fn byte(self, i: usize) -> u8
        ensures { result ≡ uid_byte self i }
    {
        let bytes = self.bytes;
        parts::byte_at(&bytes, i)
    }
}
