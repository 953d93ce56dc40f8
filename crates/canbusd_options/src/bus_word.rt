ghost use Rattle.std.specs.Prelude.{◌≡◌, IfNone, IfSome, None};
ghost use Rattle.canbusd_options.specs.BusWords.{first_name_of, names_part, path_of, script_part};
ghost use Rattle.canbusd_options.specs.Options.{IsFaultsWord};
ghost use Rattle.canbusd_options.specs.RateWords.{has_name as is_among};

/// A BUS argument: `NAMES` or `NAMES@FILE`.
#[derive(Debug, Clone, Copy)]
pub struct BusWord<'a> {
    /// The names of the interfaces, joined by commas.
    pub names: &'a str,
    /// The path of the script of faults, if one is given.
    pub script: Option<&'a str>,
}

impl<'a> BusWord<'a> {
    /// Splits a BUS argument at the first `@`, if there is one.
    pub fn read(word: &'a str) -> BusWord<'a>
        ensures names { result.names.now ≡ names_part word.now }
        ensures script { path_of result.script ≡ script_part word.now }
    {
        match word.split_once('@') {
            Some((names, script)) => BusWord {
                names,
                script: Some(script),
            },
            None => BusWord {
                names: word,
                script: None,
            },
        }
    }

    /// Returns the first of the names. The bus is called by this name.
    pub fn first_name(&self) -> &'a str
        ensures { result.now ≡ first_name_of self.now.names.now }
    {
        match self.names.split_once(',') {
            Some((first, _)) => first,
            None => self.names,
        }
    }
}

/// Returns whether a name is in a list of names that are joined by commas.
pub fn has_name(names: &str, name: &str) -> bool
    ensures { result ≡ is_among names.now name.now }
{
    names.split(',').any(|other| other == name)
}

/// An argument `NAMES@FILE`: a bus and the faults that it had in a run.
#[derive(Debug, Clone, Copy)]
pub struct FaultsWord<'a> {
    /// The names of the interfaces, joined by commas.
    pub names: &'a str,
    /// The path of the file with the script of faults.
    pub path: &'a str,
}

impl<'a> FaultsWord<'a> {
    /// Splits the argument at the first `@`. Returns `None` if there is no `@`.
    pub fn read(word: &'a str) -> Option<FaultsWord<'a>>
        ensures some { IfSome result (λ faults. IsFaultsWord faults word.now) }
        ensures none { IfNone result (script_part word.now ≡ None) }
    {
        let bus = BusWord::read(word);
        match bus.script {
            Some(path) => Some(FaultsWord {
                names: bus.names,
                path,
            }),
            None => None,
        }
    }
}
