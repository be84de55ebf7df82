// Entering a setting.
ghost use Rattle.std.specs.Prelude.{◌≡◌};
ghost use Rattle.std.specs.Option.{option_map};
ghost use Rattle.scale.specs.Entering.{ByByte, byte_of, loads_of, entered, entered_or};

use crate::settings::Settings;
use command::Mnemonic;
use value::output::UnknownNumber;

// What has this number, where the number is a byte and something has it.
fn numbered<T: TryFrom<u8, Error = UnknownNumber>>(n: i32) -> Option<T>
    ensures { ByByte T.try_from_gives (byte_of n) result }
{
    let byte = u8::try_from(n).ok()?;
    T::try_from(byte).ok()
}

impl Settings {
    // Enters the setting that a command names; nothing where it is no setting or has no such value.
    pub(crate) fn enter(&mut self, name: Mnemonic, n: i32) -> Option<()>
        ensures value { result ≡ option_map (λ _. tt) (entered self.old name n) }
        ensures settings { self.new ≡ entered_or self.old (entered self.old name n) }
        ensures loads { loads_of self.new ≡ loads_of self.old }
    {
        match name {
            Mnemonic::Cof => self.format = numbered(n)?,
            Mnemonic::Icr => self.averaging = numbered(n)?,
            Mnemonic::Nov => self.nominal = u32::try_from(n).ok()?,
            Mnemonic::Rsn => self.step = numbered(n)?,
            Mnemonic::Tas => self.display = numbered(n)?,
            _ => return None,
        }
        Some(())
    }
}
