//! The words of the command line.

ghost use Rattle.std.specs.Prelude.{◌≡◌, ◌≤◌, ℕ, List, [], ◌∷◌, ◌++◌, map, codes, None, string_bytes, IfSome, IfNone};
ghost use Rattle.std.specs.Bool.{OnTrue, OnFalse};
ghost use Rattle.std.specs.Fmt.{decimal};
ghost use Rattle.std.specs.List.{list_all};
ghost use Rattle.venue_types.specs.declared.folder_file.File.{File as AFile};
ghost use Rattle.venue_types.specs.FolderFiles.{file_name};
ghost use Rattle.venue_commands.specs.Commands.{Canon, Links, Serve, IsBase, IsFolder, IsAddress, IsIdentifier, IsAsked, Asks, AskNoJournal, words_of, is_folder_byte};
ghost use Rattle.venue_commands.specs.ReadCommands.{AskWay, IsLocal, IsCommand, service_asked};

use crate::command::{
    Base, CanonOf, Command, FolderOf, JournalOf, KeptServiceOf, Levels, LinksOf, LocalCommand,
    RouteOf, ServiceOf,
};
use crate::file_word::file_named;
use line_forms::number;
use venue_types::FeatureId;

// Whether a word names a base.
fn is_base(word: &str) -> bool
    ensures yes { OnTrue result (IsBase word.now) }
    ensures no { OnFalse result (IsBase word.now → ⊥) }
{
    !word.is_empty() && word.len() <= 1024 && !word.as_bytes().contains(&0)
}

// Whether a word has only the bytes of a folder's name.
fn is_plain(word: &str) -> bool
    ensures { result ≡ list_all is_folder_byte word.now }
{
    word.as_bytes().iter().all(|byte| matches!(*byte, b'a'..=b'z' | b'0'..=b'9' | b'_' | b'-'))
}

// Whether a word names a folder of a base.
fn is_folder(word: &str) -> bool
    ensures yes { OnTrue result (IsFolder word.now) }
    ensures no { OnFalse result (IsFolder word.now → ⊥) }
{
    !word.is_empty() && word.len() <= 64 && is_plain(word)
}

// The words, where they are two.
fn two_words(words: &[String]) -> Option<(&str, &str)>
    ensures found { IfSome result (λ pair. map string_bytes words.now ≡ pair.0.now ∷ pair.1.now ∷ []) }
    ensures none { IfNone result ((first second : List ℕ) → map string_bytes words.now ≡ first ∷ second ∷ [] → ⊥) }
{
    match words {
        [first, second] => Some((first.as_str(), second.as_str())),
        _ => None,
    }
}

// The base, where the words are this command and a base.
fn base_of<'a>(words: &'a [String], name: &str) -> Option<Base<'a>>
    ensures found { IfSome result (λ base. map string_bytes words.entry.now ≡ name.now ∷ base.name.now ∷ []) }
    ensures none { IfNone result ((base : List ℕ) → IsBase base → map string_bytes words.entry.now ≡ name.now ∷ base ∷ [] → ⊥) }
{
    let (command, base) = two_words(words)?;
    if command == name && is_base(base) {
        Some(Base { name: base })
    } else {
        None
    }
}

// The words, where they are three.
fn three_words(words: &[String]) -> Option<(&str, &str, &str)>
    ensures found { IfSome result (λ three. map string_bytes words.now ≡ three.0.now ∷ three.1.now ∷ three.2.now ∷ []) }
    ensures none { IfNone result ((first second third : List ℕ) → map string_bytes words.now ≡ first ∷ second ∷ third ∷ [] → ⊥) }
{
    match words {
        [first, second, third] => Some((first.as_str(), second.as_str(), third.as_str())),
        _ => None,
    }
}

// The base and the folder, where the words are this command, a base and a folder.
fn folder_of<'a>(words: &'a [String], name: &str) -> Option<FolderOf<'a>>
    ensures found { IfSome result (λ of. map string_bytes words.entry.now ≡ name.now ∷ of.base.now ∷ of.folder.now ∷ []) }
    ensures none { IfNone result ((base folder : List ℕ) → IsBase base → IsFolder folder → map string_bytes words.entry.now ≡ name.now ∷ base ∷ folder ∷ [] → ⊥) }
{
    let (command, base, folder) = three_words(words)?;
    if command == name && is_base(base) && is_folder(folder) {
        Some(FolderOf { base, folder })
    } else {
        None
    }
}

// The words, where they are four.
fn four_words(words: &[String]) -> Option<(&str, &str, &str, &str)>
    ensures found { IfSome result (λ four. map string_bytes words.now ≡ four.0.now ∷ four.1.now ∷ four.2.now ∷ four.3.now ∷ []) }
    ensures none { IfNone result ((first second third fourth : List ℕ) → map string_bytes words.now ≡ first ∷ second ∷ third ∷ fourth ∷ [] → ⊥) }
{
    match words {
        [first, second, third, fourth] => {
            Some((
                first.as_str(),
                second.as_str(),
                third.as_str(),
                fourth.as_str(),
            ))
        }
        _ => None,
    }
}

// The folder and a file of it, where the words ask for a file in the fixed form.
fn canon_of(words: &[String]) -> Option<CanonOf<'_>>
    ensures found { IfSome result (λ canon. Asks (map string_bytes words.now) (Canon canon.of.base.now canon.of.folder.now canon.file)) }
    ensures none { IfNone result ((base folder : List ℕ) (file : AFile) → IsBase base → IsFolder folder
        → map string_bytes words.now ≡ codes "canon" ∷ base ∷ folder ∷ file_name file ∷ [] → ⊥) }
{
    let (command, base, folder, name) = four_words(words)?;
    let file = file_named(name)?;
    if command == "canon" && is_base(base) && is_folder(folder) {
        let of = FolderOf { base, folder };
        Some(CanonOf { of, file })
    } else {
        None
    }
}

// The folder and the name of a profile, where the words ask for links.
fn links_of(words: &[String]) -> Option<LinksOf<'_>>
    ensures found { IfSome result (λ links. Asks (map string_bytes words.now) (Links links.of.base.now links.of.folder.now links.profile.now)) }
    ensures none { IfNone result ((base folder profile : List ℕ) → IsBase base → IsFolder folder → map string_bytes words.now ≡ codes "links" ∷ base ∷ folder ∷ profile ∷ [] → ⊥) }
{
    let (command, base, folder, profile) = four_words(words)?;
    if command == "links" && is_base(base) && is_folder(folder) {
        let of = FolderOf { base, folder };
        Some(LinksOf { of, profile })
    } else {
        None
    }
}

// The words, where they are six.
fn six_words(words: &[String]) -> Option<(&str, &str, &str, &str, &str, &str)>
    ensures found { IfSome result (λ six. map string_bytes words.now ≡ six.0.now ∷ six.1.now ∷ six.2.now ∷ six.3.now ∷ six.4.now ∷ six.5.now ∷ []) }
    ensures none { IfNone result ((first second third fourth fifth sixth : List ℕ) → map string_bytes words.now ≡ first ∷ second ∷ third ∷ fourth ∷ fifth ∷ sixth ∷ [] → ⊥) }
{
    match words {
        [first, second, third, fourth, fifth, sixth] => {
            Some((
                first.as_str(),
                second.as_str(),
                third.as_str(),
                fourth.as_str(),
                fifth.as_str(),
                sixth.as_str(),
            ))
        }
        _ => None,
    }
}

// The folder, the name of a profile and two identifiers, where the words ask for a way.
fn route_of(words: &[String]) -> Option<RouteOf<'_>>
    ensures found { IfSome result (AskWay (map string_bytes words.now)) }
    ensures none { IfNone result ((base folder profile from to : List ℕ) → IsBase base → IsFolder folder → IsIdentifier from → IsIdentifier to
        → map string_bytes words.now ≡ codes "route" ∷ base ∷ folder ∷ profile ∷ from ∷ to ∷ [] → ⊥) }
{
    let (command, base, folder, profile, from, to) = six_words(words)?;
    let from = FeatureId::read(from.as_bytes())?;
    let to = FeatureId::read(to.as_bytes())?;
    if command == "route" && is_base(base) && is_folder(folder) {
        let of = FolderOf { base, folder };
        Some(RouteOf {
            of,
            profile,
            from,
            to,
        })
    } else {
        None
    }
}

// Whether a number is 1 to `most`.
fn is_within(number: u64, most: u64) -> bool
    ensures yes { OnTrue result ((1 ≤ number) × (number ≤ most)) }
    ensures no { OnFalse result ((1 ≤ number) × (number ≤ most) → ⊥) }
{
    1 <= number && number <= most
}

// The number that a word spells: 1 to `most`.
fn number_in(word: &str, most: u64) -> Option<u64>
    ensures found { IfSome result (λ n. (word.now ≡ decimal n) × (1 ≤ n) × (n ≤ most)) }
    ensures none { IfNone result ((n : ℕ) → 1 ≤ n → n ≤ most → word.now ≡ decimal n → ⊥) }
{
    let found = number(word.as_bytes())?;
    if is_within(found, most) {
        Some(found)
    } else {
        None
    }
}

// The number that a word spells: 1 to 255 or less.
fn small_number_in(word: &str, most: u8) -> Option<u8>
    ensures found { IfSome result (λ n. (word.now ≡ decimal n) × (1 ≤ n) × (n ≤ most)) }
    ensures none { IfNone result ((n : ℕ) → 1 ≤ n → n ≤ most → word.now ≡ decimal n → ⊥) }
{
    let found = number_in(word, most as u64)?;
    Some(found as u8)
}

// How many levels, where the words ask for a building.
fn levels_of(words: &[String]) -> Option<Levels>
    ensures found { IfSome result (λ levels. map string_bytes words.now ≡ codes "gen" ∷ decimal levels.count ∷ []) }
    ensures none { IfNone result ((levels : ℕ) → 1 ≤ levels → levels ≤ 200 → map string_bytes words.now ≡ codes "gen" ∷ decimal levels ∷ [] → ⊥) }
{
    let (command, levels) = two_words(words)?;
    if command == "gen" {
        let count = small_number_in(levels, 200)?;
        Some(Levels { count })
    } else {
        None
    }
}

// Whether a word is an address.
fn is_address(word: &str) -> bool
    ensures yes { OnTrue result (IsAddress word.now) }
    ensures no { OnFalse result (IsAddress word.now → ⊥) }
{
    !word.is_empty() && word.len() <= 256
}

// How many workers and connections two words spell: 1 to 16, and 1 to 1,000,000.
fn counts_in(workers: &str, connections: &str) -> Option<(u8, u32)>
    ensures found { IfSome result (λ pair. (workers.now ≡ decimal pair.0) × (1 ≤ pair.0) × (pair.0 ≤ 16) × (connections.now ≡ decimal pair.1) × (1 ≤ pair.1) × (pair.1 ≤ 1000000)) }
    ensures none { IfNone result ((n m : ℕ) → 1 ≤ n → n ≤ 16 → 1 ≤ m → m ≤ 1000000 → workers.now ≡ decimal n → connections.now ≡ decimal m → ⊥) }
{
    let workers = small_number_in(workers, 16)?;
    let connections = number_in(connections, 1_000_000)?;
    Some((workers, connections as u32))
}

// The folder, the address, and how many workers and connections, where the words ask for a service.
fn service_of(words: &[String]) -> Option<ServiceOf<'_>>
    ensures found { IfSome result (λ service. Asks (map string_bytes words.now) (service_asked service)) }
    ensures none { IfNone result ((base folder address : List ℕ) (workers connections : ℕ) → IsAsked (Serve base folder address workers connections None)
        → map string_bytes words.now ≡ words_of (Serve base folder address workers connections None) → ⊥) }
{
    let (command, base, folder, address, workers, connections) = six_words(words)?;
    let (workers, connections) = counts_in(workers, connections)?;
    if command == "serve" && is_base(base) && is_folder(folder) && is_address(address) {
        let of = FolderOf { base, folder };
        Some(ServiceOf {
            of,
            address,
            workers,
            connections,
        })
    } else {
        None
    }
}

// The words in front of the last, where that names a journal, and the last.
fn with_journal(words: &[String]) -> Option<(&[String], &str)>
    ensures found { IfSome result (λ pair. map string_bytes words.now ≡ map string_bytes pair.0.now ++ pair.1.now ∷ []) }
    ensures form { IfSome result (λ pair. IsFolder pair.1.now) }
    ensures none { IfNone result ((front : List (List ℕ)) (journal : List ℕ) → IsFolder journal → map string_bytes words.now ≡ front ++ journal ∷ [] → ⊥) }
{
    let (journal, front) = words.split_last()?;
    if is_folder(journal.as_str()) {
        Some((front, journal.as_str()))
    } else {
        None
    }
}

// What the words ask for, where it keeps a journal.
fn kept_command(words: &[String]) -> Option<Command<'_>>
    ensures found { IfSome result (IsCommand (map string_bytes words.now)) }
    ensures none { IfNone result (AskNoJournal (map string_bytes words.now)) }
{
    let (front, journal) = with_journal(words)?;
    if let Some(of) = folder_of(front, "session") {
        return Some(Command::KeptSession(JournalOf { of, journal }));
    }
    if let Some(service) = service_of(front) {
        return Some(Command::KeptServe(KeptServiceOf { service, journal }));
    }
    None
}

// What the words ask for, where it needs no doors and keeps no journal.
fn local_command(words: &[String]) -> LocalCommand<'_>
    requires no_service { (base folder address : List ℕ) (workers connections : ℕ) → IsAsked (Serve base folder address workers connections None)
        → map string_bytes words.now ≡ words_of (Serve base folder address workers connections None) → ⊥ }
    requires no_journal { AskNoJournal (map string_bytes words.now) }
    ensures { IsLocal (map string_bytes words.now) result }
{
    if let Some(base) = base_of(words, "price") {
        return LocalCommand::Price(base);
    }
    if let Some(base) = base_of(words, "verify") {
        return LocalCommand::Verify(base);
    }
    if let Some(of) = folder_of(words, "check") {
        return LocalCommand::Check(of);
    }
    if let Some(of) = folder_of(words, "session") {
        return LocalCommand::Session(of);
    }
    if let Some(canon) = canon_of(words) {
        return LocalCommand::Canon(canon);
    }
    if let Some(links) = links_of(words) {
        return LocalCommand::Links(links);
    }
    if let Some(route) = route_of(words) {
        return LocalCommand::Route(route);
    }
    if let Some(levels) = levels_of(words) {
        return LocalCommand::Gen(levels);
    }
    LocalCommand::Unknown
}

/// What the words of a command line ask for.
pub fn read_command(words: &[String]) -> Command<'_>
    ensures { IsCommand (map string_bytes words.now) result }
{
    if let Some(service) = service_of(words) {
        return Command::Serve(service);
    }
    if let Some(kept) = kept_command(words) {
        return kept;
    }
    Command::Local(local_command(words))
}
