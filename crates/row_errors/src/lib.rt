// The first error of a command's row of document 01's table that applies. It serves nothing: the tag and its memory are only read.
#![tactic(auto)]

ghost use Rattle.std.specs.Prelude.{◌≡◌, Bool, [], ◌∷◌};
ghost use Rattle.register_types.specs.declared.RfMngt.{RfMngt};
ghost use Rattle.errors.specs.declared.RadioError.TheVariants.{NoSuchBlock, NotLockable, AlreadyLocked, NoSuchRegister, ConfigurationClosed, EndRefused, NoSuchDynamicRegister, MailboxUnavailable, MailboxDisabled, PastMessage, NoSuchPassword, WrongPassword, PasswordSessionClosed};
ghost use Rattle.row_rules.specs.RowErrors.{more_blocks, read_errors, write_errors, command_errors, row_errors, first_applying};

use commands::{Command, CommandRow};
use errors::RadioError;
use keys::Password;
use reply::RadioSide;
use rights::Side;

// One less than the blocks that a read or a write asks for.
fn more_blocks(f: &[u8]) -> u8
    ensures { result ≡ more_blocks f.now }
{
    let c = frame::command(f);
    if (c == 0x23) | (c == 0x24) {
        return frame::param(f, 1);
    }
    0
}

// 20 and 23.
fn read_error(v: RadioSide, f: &[u8]) -> Result<(), RadioError>
    ensures { (dynamic : RfMngt) (busy : Bool) → result ≡ first_applying dynamic busy v f.now read_errors }
{
    let first = frame::param(f, 0) as u16;
    let last = first + more_blocks(f) as u16;
    let r = v.core.registers;
    let session = v.air.session;
    if tag::BLOCKS <= first {
        return Err(RadioError::NoSuchBlock);
    }
    if blocks::leaves_area(r.ends, first, last) {
        return Err(RadioError::ReadLeavesArea);
    }
    if !rights::may_read(r, Side::Radio(session), first) {
        return Err(RadioError::ReadProtected);
    }
    Ok(())
}

// 21 and 24.
fn write_error(v: RadioSide, m: &[u8], f: &[u8]) -> Result<(), RadioError>
    ensures { (dynamic : RfMngt) (busy : Bool) → result ≡ first_applying dynamic busy v f.now write_errors }
{
    let first = frame::param(f, 0);
    let more = more_blocks(f);
    let last = first as u16 + more as u16;
    let ends = v.core.registers.ends;
    if 3 < more {
        return Err(RadioError::TooManyBlocks);
    }
    if tag::BLOCKS <= first as u16 {
        return Err(RadioError::NoSuchBlock);
    }
    if blocks::leaves_area(ends, first as u16, last) {
        return Err(RadioError::WriteLeavesArea);
    }
    if !block_writes::all_allowed(v.core, m, v.air.session, first, more) {
        return Err(RadioError::WriteForbidden);
    }
    Ok(())
}

// 22.
fn lock_error(v: RadioSide, f: &[u8]) -> Result<(), RadioError>
    ensures { (dynamic : RfMngt) (busy : Bool) → result ≡ first_applying dynamic busy v f.now (NotLockable ∷ AlreadyLocked ∷ []) }
{
    let block = frame::param(f, 0);
    let lock = v.core.registers.ccfile;
    if 1 < block {
        return Err(RadioError::NotLockable);
    }
    if rights::is_locked(lock, block as u16) {
        return Err(RadioError::AlreadyLocked);
    }
    Ok(())
}

// 2C.
fn status_error(v: RadioSide, f: &[u8]) -> Result<(), RadioError>
    ensures { (dynamic : RfMngt) (busy : Bool) → result ≡ first_applying dynamic busy v f.now (NoSuchBlock ∷ []) }
{
    if tag::BLOCKS <= frame::param(f, 0) as u16 {
        return Err(RadioError::NoSuchBlock);
    }
    Ok(())
}

// A0.
fn read_config_error(v: RadioSide, f: &[u8]) -> Result<(), RadioError>
    ensures { (dynamic : RfMngt) (busy : Bool) → result ≡ first_applying dynamic busy v f.now (NoSuchRegister ∷ []) }
{
    let row = register_table::row_of(frame::param(f, 0) as u32);
    if !row.radio {
        return Err(RadioError::NoSuchRegister);
    }
    Ok(())
}

// A1.
fn write_config_error(v: RadioSide, f: &[u8]) -> Result<(), RadioError>
    ensures { (dynamic : RfMngt) (busy : Bool) → result ≡ first_applying dynamic busy v f.now (NoSuchRegister ∷ ConfigurationClosed ∷ EndRefused ∷ []) }
{
    let pointer = frame::param(f, 0) as u32;
    let row = register_table::row_of(pointer);
    let ends = v.core.registers.ends;
    let lock = v.core.registers.config;
    if !row.radio {
        return Err(RadioError::NoSuchRegister);
    }
    if (lock.bits / 1 % 2 == 1) | (v.air.session != 1) {
        return Err(RadioError::ConfigurationClosed);
    }
    if !areas::end_allows(ends, pointer, frame::param(f, 1)) {
        return Err(RadioError::EndRefused);
    }
    Ok(())
}

// AD and AE.
fn dynamic_error(v: RadioSide, f: &[u8]) -> Result<(), RadioError>
    ensures { (dynamic : RfMngt) (busy : Bool) → result ≡ first_applying dynamic busy v f.now (NoSuchDynamicRegister ∷ []) }
{
    if frame::param(f, 0) != dynamic::MB_CTRL_POINTER {
        return Err(RadioError::NoSuchDynamicRegister);
    }
    Ok(())
}

// AA.
fn write_message_error(v: RadioSide, f: &[u8]) -> Result<(), RadioError>
    ensures { (dynamic : RfMngt) (busy : Bool) → result ≡ first_applying dynamic busy v f.now (MailboxUnavailable ∷ []) }
{
    let mailbox = v.core.mailbox;
    if !message_writes::takes_message(mailbox) {
        return Err(RadioError::MailboxUnavailable);
    }
    Ok(())
}

// AB.
fn length_error(v: RadioSide, f: &[u8]) -> Result<(), RadioError>
    ensures { (dynamic : RfMngt) (busy : Bool) → result ≡ first_applying dynamic busy v f.now (MailboxDisabled ∷ []) }
{
    let mailbox = v.core.mailbox;
    if !mailbox.enabled {
        return Err(RadioError::MailboxDisabled);
    }
    Ok(())
}

// AC.
fn read_message_error(v: RadioSide, f: &[u8]) -> Result<(), RadioError>
    ensures { (dynamic : RfMngt) (busy : Bool) → result ≡ first_applying dynamic busy v f.now (MailboxDisabled ∷ PastMessage ∷ []) }
{
    let mailbox = v.core.mailbox;
    let pointer = frame::param(f, 0);
    let end = pointer as u32 + message::asked(mailbox, pointer, frame::param(f, 1)) as u32;
    if !mailbox.enabled {
        return Err(RadioError::MailboxDisabled);
    }
    if ((mailbox.length as u32) < end) | (mailbox.length == 0) {
        return Err(RadioError::PastMessage);
    }
    Ok(())
}

// B3.
fn present_error(v: RadioSide, f: &[u8]) -> Result<(), RadioError>
    ensures { (dynamic : RfMngt) (busy : Bool) → result ≡ first_applying dynamic busy v f.now (NoSuchPassword ∷ WrongPassword ∷ []) }
{
    let n = frame::param(f, 0);
    let at = frame::param_place(f);
    let passwords = v.core.passwords;
    if 3 < n {
        return Err(RadioError::NoSuchPassword);
    }
    if passwords.radio(n) != Password::at(f, at + 1) {
        return Err(RadioError::WrongPassword);
    }
    Ok(())
}

// B1.
fn write_password_error(v: RadioSide, f: &[u8]) -> Result<(), RadioError>
    ensures { (dynamic : RfMngt) (busy : Bool) → result ≡ first_applying dynamic busy v f.now (NoSuchPassword ∷ PasswordSessionClosed ∷ []) }
{
    let n = frame::param(f, 0);
    if 3 < n {
        return Err(RadioError::NoSuchPassword);
    }
    if v.air.session != n + 1 {
        return Err(RadioError::PasswordSessionClosed);
    }
    Ok(())
}

// Of a command.
fn command_error(command: Command, v: RadioSide, m: &[u8], f: &[u8]) -> Result<(), RadioError>
    ensures { (dynamic : RfMngt) (busy : Bool) → result ≡ first_applying dynamic busy v f.now (command_errors command) }
{
    match command {
        Command::StayQuiet => Ok(()),
        Command::Select => Ok(()),
        Command::ResetToReady => Ok(()),
        Command::ReadSingleBlock => read_error(v, f),
        Command::ReadMultipleBlocks => read_error(v, f),
        Command::WriteSingleBlock => write_error(v, m, f),
        Command::WriteMultipleBlocks => write_error(v, m, f),
        Command::LockBlock => lock_error(v, f),
        Command::GetMultipleBlockSecurityStatus => status_error(v, f),
        Command::ReadConfiguration => read_config_error(v, f),
        Command::WriteConfiguration => write_config_error(v, f),
        Command::ReadDynamicConfiguration => dynamic_error(v, f),
        Command::WriteDynamicConfiguration => dynamic_error(v, f),
        Command::WriteMessage => write_message_error(v, f),
        Command::ReadMessageLength => length_error(v, f),
        Command::ReadMessage => read_message_error(v, f),
        Command::PresentPassword => present_error(v, f),
        Command::WritePassword => write_password_error(v, f),
    }
}

// Of what a command code stands for; an unknown one has no row.
pub fn row_error(
    code: Option<CommandRow>,
    v: RadioSide,
    m: &[u8],
    f: &[u8],
) -> Result<(), RadioError>
    ensures { (dynamic : RfMngt) (busy : Bool) → result ≡ first_applying dynamic busy v f.now (row_errors code) }
{
    match code {
        None => Ok(()),
        Some(row) => command_error(row.command, v, m, f),
    }
}
