ghost use Rattle.std.specs.Prelude.{◌≡◌};
ghost use Rattle.std.specs.Result.{result_ok};
ghost use Rattle.sum_text.specs.Method.{method_of};

use crate::word::UnknownName;
use std::str::FromStr;

// Which totaller writes a sum.
#[derive(Clone, Copy, PartialEq, Eq, Debug)]
pub enum Method {
    Running,
    Adder,
}

impl FromStr for Method {
    type Err = UnknownName;

    ghost from_str_gives = { λ word r. result_ok r ≡ method_of word };

    fn from_str(word: &str) -> Result<Method, UnknownName> {
        match word {
            "running" => Ok(Method::Running),
            "adder" => Ok(Method::Adder),
            _ => Err(UnknownName),
        }
    }
}

// A sum that owns its items: the weights of the true ones shall add to the target.
#[derive(Drop)]
pub struct OwnedSum {
    pub method: Method,
    pub target: u32,
    // The first fresh number.
    pub first: u32,
    // The items, as the two lists that a totaller is handed.
    pub variables: Vec<u32>,
    pub weights: Vec<u8>,
}
