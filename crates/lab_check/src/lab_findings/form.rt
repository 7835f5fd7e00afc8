//! The statements of a definition that are kept, with their operands and the values that are right.

use crate::lab_findings::near::is_near;

/// What is right for names.
const NAME: &str = "1..8 LETTERS,DIGITS,$#@_";

const PROGRAM_NAME: &str = "1..32 LETTERS,DIGITS,$#@_";

/// A statement that is kept.
#[derive(Clone, Copy)]
pub struct Form {
    pub keyword: &'static str,
    /// What is right for its first operand, which has no key; empty where all operands have one.
    pub first: &'static str,
    /// The keys of its operands, and what is right for them.
    operands: &'static [(&'static str, &'static str)],
}

const MAX_OPERANDS: &[(&str, &str)] = &[
    ("APPLINAME", NAME),
    ("KDCFILE", "(BASE,SINGLE),(BASE,DOUBLE),BASE"),
    ("TASKS", "1..240"),
    ("ASYNTASKS", "0..240"),
    ("GSSBS", "0..30000"),
    ("LSSBS", "0..1000"),
    ("KB", "0..32767"),
    ("SPAB", "0..32767"),
    ("NB", "1..32700"),
    ("PGPOOL", "16..30000"),
    ("RESWAIT", "0..32767"),
    ("BLKSIZE", "2K,4K,8K"),
    ("APPLIMODE", "SECURE"),
    ("REDELIVERY", "0..255"),
];

const TAC_OPERANDS: &[(&str, &str)] = &[
    ("PROGRAM", PROGRAM_NAME),
    ("TYPE", "D,A"),
    ("CALL", "BOTH,FIRST,NEXT"),
    ("STATUS", "ON,OFF"),
    ("TACCLASS", "1..16"),
    ("TIME", "0..100000"),
    ("LOCK", "1..4000"),
];

const USER_OPERANDS: &[(&str, &str)] = &[
    ("PASS", "1..16 BYTES"),
    ("RESTART", "YES,NO"),
    ("KSET", NAME),
];

const FORMS: &[Form] = &[
    Form {
        keyword: "MAX",
        first: "",
        operands: MAX_OPERANDS,
    },
    Form {
        keyword: "PROGRAM",
        first: PROGRAM_NAME,
        operands: &[],
    },
    Form {
        keyword: "TAC",
        first: NAME,
        operands: TAC_OPERANDS,
    },
    Form {
        keyword: "USER",
        first: NAME,
        operands: USER_OPERANDS,
    },
    Form {
        keyword: "PTERM",
        first: NAME,
        operands: &[("LTERM", NAME)],
    },
    Form {
        keyword: "LTERM",
        first: NAME,
        operands: &[("USAGE", "D,O"), ("KSET", NAME)],
    },
    Form {
        keyword: "TLS",
        first: NAME,
        operands: &[],
    },
    Form {
        keyword: "ULS",
        first: NAME,
        operands: &[],
    },
    Form {
        keyword: "TACCLASS",
        first: "1..16",
        operands: &[("TASKS", "0..240")],
    },
    Form {
        keyword: "KSET",
        first: NAME,
        operands: &[("KEYS", "1..4000,MASTER")],
    },
    Form {
        keyword: "END",
        first: "",
        operands: &[],
    },
];

/// The statement of this keyword, if it is kept.
pub fn form_of(keyword: &[u8]) -> Option<Form> {
    for form in FORMS {
        if keyword.eq_ignore_ascii_case(form.keyword.as_bytes()) {
            return Some(*form);
        }
    }
    None
}

impl Form {
    /// What is right for the operand of this key, if there is one.
    pub fn right_of(&self, key: &[u8]) -> Option<&'static str> {
        for (known, right) in self.operands {
            if key.eq_ignore_ascii_case(known.as_bytes()) {
                return Some(*right);
            }
        }
        None
    }

    /// The first key that is nearly this.
    pub fn near_key(&self, key: &[u8]) -> Option<&'static str> {
        for (known, _) in self.operands {
            if is_near(key, known.as_bytes()) {
                return Some(*known);
            }
        }
        None
    }
}
