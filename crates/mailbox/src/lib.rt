// The mailbox but for its bytes: MB_CTRL_Dyn and MB_LEN_Dyn, and what changes them.
#![tactic(auto)]

ghost use Rattle.std.specs.Prelude.{◌≡◌, ◌≤◌};
ghost use Rattle.mailbox.specs.Mailbox.{control_byte, length_byte, empty_mailbox, disabled, enabled, controlled, host_put, radio_put, host_read, radio_read, weight};

use register_types::MbMode;

// One side's bits of MB_CTRL_Dyn: a message not yet read, and that the message is this side's.
#[derive(Clone, Copy)]
pub struct Message {
    pub put: bool,
    pub current: bool,
}

#[derive(Clone, Copy)]
pub struct Mailbox {
    // MB_EN.
    pub enabled: bool,
    // HOST_PUT and HOST_CURRENT.
    pub host: Message,
    // RF_PUT and RF_CURRENT.
    pub rf: Message,
    // The message's length, 0 when empty.
    pub length: u16,
}

impl Message {
    const NONE: Message = Message {
        put: false,
        current: false,
    };

    // Put and not yet read.
    const PUT: Message = Message {
        put: true,
        current: true,
    };
}

fn weight(on: bool, n: u8) -> u8
    ensures value { result ≡ weight on n }
    ensures upper_bound { result ≤ n }
{
    u8::from(on) * n
}

impl Mailbox {
    // MB_CTRL_Dyn.
    pub fn control_byte(self) -> u8
        ensures { result ≡ control_byte self }
    {
        let en = weight(self.enabled, 0x01);
        let host_put = weight(self.host.put, 0x02);
        let rf_put = weight(self.rf.put, 0x04);
        let host_current = weight(self.host.current, 0x40);
        let rf_current = weight(self.rf.current, 0x80);
        en + host_put + rf_put + host_current + rf_current
    }

    // MB_LEN_Dyn.
    pub fn length_byte(self) -> u8
        ensures { result ≡ length_byte self }
    {
        (self.length.saturating_sub(1) % 256) as u8
    }

    // Disabled and empty.
    pub fn fresh() -> Mailbox
        ensures { result ≡ empty_mailbox }
    {
        Mailbox {
            enabled: false,
            host: Message::NONE,
            rf: Message::NONE,
            length: 0,
        }
    }

    pub fn disable(self) -> Mailbox
        ensures { result ≡ disabled self }
    {
        Mailbox::fresh()
    }

    pub fn enable(self, mode: MbMode, vcc: bool) -> Mailbox
        ensures { result ≡ enabled mode vcc self }
    {
        if (mode.bits / 1 % 2 == 1) & vcc {
            return Mailbox {
                enabled: true,
                ..self
            };
        }
        self
    }

    // A write of MB_CTRL_Dyn.
    pub fn control(self, byte: u8, mode: MbMode, vcc: bool) -> Mailbox
        ensures { result ≡ controlled byte mode vcc self }
    {
        if byte / 1 % 2 == 1 {
            return self.enable(mode, vcc);
        }
        self.disable()
    }

    // A message of n bytes from the host.
    pub fn host_put(self, n: u16) -> Mailbox
        ensures { result ≡ host_put n self }
    {
        Mailbox {
            host: Message::PUT,
            rf: Message {
                current: false,
                ..self.rf
            },
            length: n,
            ..self
        }
    }

    // A message of n bytes from the radio.
    pub fn radio_put(self, n: u16) -> Mailbox
        ensures { result ≡ radio_put n self }
    {
        Mailbox {
            host: Message {
                current: false,
                ..self.host
            },
            rf: Message::PUT,
            length: n,
            ..self
        }
    }

    // The host has read an RF message to its end.
    pub fn host_read(self) -> Mailbox
        ensures { result ≡ host_read self }
    {
        Mailbox {
            rf: Message {
                put: false,
                ..self.rf
            },
            ..self
        }
    }

    // The radio has read a host message to its end.
    pub fn radio_read(self) -> Mailbox
        ensures { result ≡ radio_read self }
    {
        Mailbox {
            host: Message {
                put: false,
                ..self.host
            },
            ..self
        }
    }
}
