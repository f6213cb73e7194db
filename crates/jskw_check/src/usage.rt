//! Texts of the program.

// What `--version` prints.
pub(crate) const VERSION: &str = "jskw 0.3.0 (rattle logic dac8208d650f15bf)\n";

// How the program is called.
pub(crate) const USAGE: &str =
    "usage: jskw check [-h] --schema SCHEMA [--draft {4,6,7,2019-09,2020-12}]
                  [--vocabularies LIST] [--override NAME] [--lines]
                  [--output {text,basic,quiet}] [--max-errors N] [--allow-unchecked]
                  [--verbose] [--progress] [--version]
                  [FILE ...]
";

// What `--help` prints.
pub(crate) const HELP: &str =
    "usage: jskw check [-h] --schema SCHEMA [--draft {4,6,7,2019-09,2020-12}]
                  [--vocabularies LIST] [--override NAME] [--lines]
                  [--output {text,basic,quiet}] [--max-errors N] [--allow-unchecked]
                  [--verbose] [--progress] [--version]
                  [FILE ...]

Checks JSON documents against a schema, and writes a line for each error:
FILE:LINE:COLUMN: instance location: message [keyword location]. Each FILE is a
document; - is standard input, which is read if there is no FILE.

positional arguments:
  FILE                  what is checked

options:
  -h, --help            show this help message and exit
  --schema SCHEMA       the file of the schema; - is standard input
  --draft {4,6,7,2019-09,2020-12}
                        unless given, the one that the schema's $schema names, or
                        2020-12
  --vocabularies LIST   those that are present, of core, applicator, validation,
                        with a comma between two; unless given, all three
  --override NAME       does not assert this keyword; may be repeated
  --lines               each line of a FILE is a document (JSON Lines); answers
                        name the line
  --output {text,basic,quiet}
                        text: a line for each error; basic: a line of JSON for
                        each document; quiet: only what could not be checked
  --max-errors N        writes the first N errors of each document at most, 0 for
                        all; unless given, 1000; `.. and more` says that there are
                        others
  --allow-unchecked     ignores keywords of the schema that are not checked
  --verbose             text says of a valid document that it is valid, too
  --progress            shows on standard error what is done
  --version             show program's version number and exit

Exit status: 0 if all documents are valid, 1 if one is invalid, 2 if something
could not be checked: then the rest is checked all the same.
";
