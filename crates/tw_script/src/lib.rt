// Scripts: the lines of one, each judged by what the lines before it made.
#![tactic(auto)]

mod asked_forms;
mod laws;
pub mod limits;
mod line;
mod line_forms;
mod line_words;
mod made;
mod parts;
mod script;
mod stop;
mod there;
mod word_values;

pub use laws::script_laws;
pub use limits::limit_laws;
pub use line::{CrashChoice, Line};
pub use script::{NumberedLine, Script, ScriptFault, read_script};
