// The classes of events.
ghost use Rattle.unwinding.specs.Classes.{Lettered};

#[derive(Clone, Copy, PartialEq, Eq, Debug)]
pub enum Class {
    Visible,
    Neutral,
    Confidential,
}

// A letter that stands for no class.
#[derive(Clone, Copy, PartialEq, Eq, Debug)]
pub struct UnknownLetter(pub u8);

// The class that a letter stands for.
impl TryFrom<u8> for Class {
    type Error = UnknownLetter;

    ghost try_from_gives = { Lettered };

    fn try_from(letter: u8) -> Result<Class, UnknownLetter> {
        match char::from(letter) {
            'V' => Ok(Class::Visible),
            'N' => Ok(Class::Neutral),
            'C' => Ok(Class::Confidential),
            _ => Err(UnknownLetter(letter)),
        }
    }
}
