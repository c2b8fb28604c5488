ghost use Rattle.std.specs.Prelude.{◌≡◌, ◌≤◌};
ghost use Rattle.datapoints.specs.Names.{type_named, IsTypeNamed};
ghost use Rattle.datapoints.specs.Apdus.{apdu_size};

/// A datapoint type: how the octets of a value are meant.
#[derive(Clone, Copy, Debug, PartialEq, Eq)]
pub enum Dpt {
    /// 1.001, a bit: `off` or `on`.
    Switch,
    /// 5.001, an octet: a part of 255, in hundredths of a percent.
    Scaling,
    /// 5.010.
    U8,
    /// 7.001.
    U16,
    /// 12.001.
    U32,
    /// 6.010.
    I8,
    /// 8.001.
    I16,
    /// 13.001.
    I32,
    /// 9.001, two octets: hundredths with an exponent.
    Hundredths,
    /// 10.001, three octets: a day of the week and a time of day.
    Time,
    /// 11.001, three octets: a date from 1990 to 2089.
    Date,
    /// 16.000, fourteen octets: ASCII characters.
    Text14,
}

impl Dpt {
    /// The type of this name, as `9.001`.
    #[tactic(auto, unfolding(crate::specs::Names::type_named))]
    pub fn read(text: &str) -> Option<Dpt>
        ensures exact { result ≡ type_named text.now }
        ensures named { IsTypeNamed text.now result }
    {
        match text {
            "1.001" => Some(Dpt::Switch),
            "5.001" => Some(Dpt::Scaling),
            "5.010" => Some(Dpt::U8),
            "7.001" => Some(Dpt::U16),
            "12.001" => Some(Dpt::U32),
            "6.010" => Some(Dpt::I8),
            "8.001" => Some(Dpt::I16),
            "13.001" => Some(Dpt::I32),
            "9.001" => Some(Dpt::Hundredths),
            "10.001" => Some(Dpt::Time),
            "11.001" => Some(Dpt::Date),
            "16.000" => Some(Dpt::Text14),
            _ => None,
        }
    }

    // How many octets an APDU with such a value has.
    pub(crate) fn apdu_size(self) -> u8
        ensures size { result ≡ apdu_size self }
        ensures least { 2 ≤ result }
        ensures most { result ≤ 16 }
    {
        match self {
            Dpt::Switch => 2,
            Dpt::Scaling | Dpt::U8 | Dpt::I8 => 3,
            Dpt::U16 | Dpt::I16 | Dpt::Hundredths => 4,
            Dpt::Time | Dpt::Date => 5,
            Dpt::U32 | Dpt::I32 => 6,
            Dpt::Text14 => 16,
        }
    }
}
