// The radio state and the field.
#![tactic(auto)]

ghost use Rattle.std.specs.Prelude.{◌≡◌};
ghost use Rattle.air.specs.Radio.{is_quiet, is_selected, selected, deselected, quieted, reset, field_off, field_on, field_at};
ghost use Rattle.air.specs.Parts.{out_of_field, with_state, with_radio_session, with_slots};

#[derive(Clone, Copy, PartialEq, Eq)]
pub enum RadioState {
    Ready,
    Quiet,
    Selected,
}

// All that a field change touches. The session is 0 for none, 1 to 4 for passwords 0 to 3; slots is how many
// ends-of-frame are left to the tag's slot of an inventory, 0 to 15.
#[derive(Clone, Copy)]
pub struct Air {
    pub field: bool,
    pub radio: RadioState,
    pub session: u8,
    pub slots: u8,
}

pub fn is_quiet(x: RadioState) -> bool
    ensures { result ≡ is_quiet x }
{
    x == RadioState::Quiet
}

pub fn is_selected(x: RadioState) -> bool
    ensures { result ≡ is_selected x }
{
    x == RadioState::Selected
}

impl Air {
    // Out of the field.
    pub fn fresh() -> Air
        ensures { result ≡ out_of_field }
    {
        Air {
            field: false,
            radio: RadioState::Ready,
            session: 0,
            slots: 0,
        }
    }

    pub fn with_session(self, n: u8) -> Air
        ensures { result ≡ with_radio_session n self }
    {
        Air { session: n, ..self }
    }

    pub fn with_slots(self, n: u8) -> Air
        ensures { result ≡ with_slots n self }
    {
        Air { slots: n, ..self }
    }

    fn with_state(self, radio: RadioState) -> Air
        ensures { result ≡ with_state radio self }
    {
        Air { radio, ..self }
    }

    // Select with the own UID.
    pub fn select(self) -> Air
        ensures { result ≡ selected self }
    {
        self.with_state(RadioState::Selected)
    }

    // Select with another UID.
    pub fn deselect(self) -> Air
        ensures { result ≡ deselected self }
    {
        if is_selected(self.radio) {
            return self.reset();
        }
        self
    }

    pub fn stay_quiet(self) -> Air
        ensures { result ≡ quieted self }
    {
        self.with_slots(0).with_state(RadioState::Quiet)
    }

    pub fn reset(self) -> Air
        ensures { result ≡ reset self }
    {
        self.with_state(RadioState::Ready)
    }

    pub fn field_off(self) -> Air
        ensures { result ≡ field_off self }
    {
        Air::fresh()
    }

    pub fn field_on(self) -> Air
        ensures { result ≡ field_on self }
    {
        Air {
            field: true,
            ..self
        }
    }

    // The field at a level; a repeated level changes nothing.
    pub fn field_at(self, on: bool) -> Air
        ensures { result ≡ field_at on self }
    {
        match (self.field, on) {
            (false, true) => self.field_on(),
            (true, false) => self.field_off(),
            _ => self,
        }
    }
}
