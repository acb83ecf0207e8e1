//! Authorizations and reject codes as people read them.

use crate::authorization::Auth;
use crate::reject::{Code, Rejects};
use std::fmt;
use std::fmt::{Display, Formatter};

impl Display for Auth {
    /// Its sixteen digits: four of the payer, then twelve of the serial.
    fn fmt<W: fmt::Write>(&self, f: &mut Formatter<W>) -> fmt::Result {
        let payer = self.payer();
        let serial = self.serial();
        write!(f, "{payer:04}{serial:012}")
    }
}

impl Display for Code {
    /// Its bytes, as field 511-FB has them.
    fn fmt<W: fmt::Write>(&self, f: &mut Formatter<W>) -> fmt::Result {
        for letter in self.text() {
            f.write_char(char::from(*letter))?;
        }
        Ok(())
    }
}

impl Display for Rejects {
    /// The codes, joined by commas.
    fn fmt<W: fmt::Write>(&self, f: &mut Formatter<W>) -> fmt::Result {
        for (place, code) in self.as_slice().iter().enumerate() {
            if place > 0 {
                f.write_str(",")?;
            }
            write!(f, "{code}")?;
        }
        Ok(())
    }
}
