//! Passwords.
ghost use Rattle.std.specs.Prelude.{◌≡◌};
ghost use Rattle.kdcdef_read.specs.Passwords.{password_of};

use std::marker::Model;
use texts::kdcdef_lex::QuotedBytes;

/// A password: 1 to 16 bytes. Contracts see the list of them.
#[derive(Clone, Copy)]
pub struct Password {
    cells: [u8; 16],
    used: u8,
}

impl Model for Password {
    ghost use Rattle.std.specs.Prelude.{List, ℕ, length, take};
    ghost use Rattle.kd_base.specs.Text.{filled};

    ghost Value = { List ℕ };

    ghost use Rattle.kdcdef_read.specs.{PasswordCells.{IsPasswordCells}, PasswordCellsLaws.{same_password}};

    ghost view = { λ n. take n.used n.cells };

    ghost invariant = { λ n. IsPasswordCells n };

    ghost inverse = { λ bytes. record { cells = filled 16 bytes; used = length bytes } };

    ghost inverse_ok = { same_password };
}

impl Password {
    /// The password with these bytes. It takes no memory.
    pub fn from_bytes(bytes: &[u8]) -> Option<Password>
        ensures { result ≡ password_of bytes.now }
    {
        if bytes.is_empty() || bytes.len() > 16 {
            return None;
        }
        let mut cells = [b' '; 16];
        cells[..bytes.len()].copy_from_slice(bytes);
        Some(Password {
            cells,
            used: bytes.len() as u8,
        })
    }

    /// The same from a quoted value.
    pub fn from_quoted(bytes: &QuotedBytes) -> Option<Password>
        ensures { result ≡ password_of bytes.now }
    {
        let mut cells = [b' '; 16];
        let mut used: usize = 0;
        let mut left = bytes.again();
        while let Some((byte, rest)) = left.next() {
            if used == 16 {
                return None;
            }
            cells[used] = byte;
            used += 1;
            left = rest;
        }
        Password::from_bytes(&cells[..used])
    }

    /// The bytes of the password.
    pub fn as_slice(&self) -> &[u8]
        ensures { result.now ≡ self.now }
    {
        &self.cells[..self.used as usize]
    }
}
