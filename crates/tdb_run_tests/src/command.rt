// Words that are a command, and words that are none.
use std::test::Fail;
use tdb_base::Suite::{Aes128, Aes256, Plain};
use tdb_run::{Command, read_command};

#[test]
fn words_are_one_command_or_none(rt: HostRuntime) -> Result<(), Fail> {
    let table: [(&[&str], Option<Command>); 15] = [
        (&["start", "plain", "16"], Some(Command::Start(Plain, 16))),
        (
            &["start", "plain", "4096"],
            Some(Command::Start(Plain, 4096)),
        ),
        (&["start", "aes128", "16"], Some(Command::Start(Aes128, 16))),
        (&["start", "aes256", "16"], Some(Command::Start(Aes256, 16))),
        (&["format", "plain", "17"], Some(Command::Format(Plain, 17))),
        (
            &["format", "aes256", "16"],
            Some(Command::Format(Aes256, 16)),
        ),
        (&["run"], Some(Command::Run)),
        (&[], None),
        (&["start", "plain"], None),
        (&["start", "plain", "15"], None),
        (&["format", "plain", "4097"], None),
        (&["start", "plain", "016"], None),
        (&["start", "aes192", "16"], None),
        (&["run", "plain", "16"], None),
        (&["start"], None),
    ];
    for (words, command) in table {
        assert_eq!(rt; read_command(words), command);
    }
    Ok(())
}
