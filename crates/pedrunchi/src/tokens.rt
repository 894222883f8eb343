// `pedrunchi tokens`: the tokens of a source, one to a line.
use crate::Ended;
use crate::show::Listing;
use parser::faults::ParseFault;
use reports::lines::{Location, locate};
use std::io;
use tiny::scanner::{Scanner, count_tokens};
use tiny::tokens::Token;
use trees::faults::TreeFault;

impl Listing<'_> {
    // Every token with its place, line and column, class and text, and how many there are; or the
    // first refusal.
    pub fn tokens(self) -> Result<(), Ended> {
        let count = match count_tokens(self.source) {
            Ok(count) => count,
            Err(fault) => {
                self.refusal(TreeFault::Parse(ParseFault::Scan(fault)))?;
                return Err(Ended::Refused);
            }
        };
        println!(self.rt; "place  line:column  class            text")?;
        let mut scanner = Scanner::new(self.source);
        while let Ok(Some(token)) = scanner.next() {
            self.token_row(token)?;
        }
        println!(self.rt; "{count} tokens")?;
        Ok(())
    }

    fn token_row(self, token: Token) -> io::Result<()> {
        let place = token.place;
        let Location { line, column, .. } = locate(self.source, place);
        let class = token.what.kind.class();
        print!(self.rt; "{place:>5}  {line:>4}:{column:<6}  {class:<15}  ")?;
        self.token(token)
    }
}
