/// Lines for a person whose words have no meaning: the words that there are, and what each does.
pub fn usage_lines() -> &'static str {
    "\
The program reads a bundle from standard input, runs it on threads, and writes transcripts and the journal to standard output.
Its words:
  --replay       runs the bundle on one thread, in an order of turns that the bundle alone decides
  --workers N    runs it on threads with N workers, and not with one for each party
  --load N       makes a bundle that hands over N numbers, runs it on one thread without reading, and writes a summary of six lines
  --library DIR  keeps saved workspaces as files DIR/USER/NAME, where a later run finds them
  --text DIR     reads and writes text files as DIR/NAME, and leaves the files of the bundle aside
  --clock        reads the clock of the machine, and leaves the readings of the bundle aside
  --components   keeps files of arrays behind party 20, in the place of files of lines
  --relay        carries texts between users behind party 10, in the place of telling the time
  --check        reads a bundle and behind it a text, and says whether the text is the output of a run of the bundle
  --picture      reads an output in the place of a bundle, and draws entries of its journal as an SVG, 2000 at most
  --from N       begins the picture with entry N, and not with the first one
  --to N         ends the picture with entry N, and not with the last one
  --why N        reads an output in the place of a bundle, and says why entry N of its journal is what it is
Each stands once at most, in any order; --check alone, --why alone, --picture with --from and --to alone, and one of --replay, --workers
and --load alone. N is from 1 to 34 for workers, from 1 to 100000 for a load, and else the place of an entry, without a sign or a 0 in front.
DIR is not empty. A value is the next word, and then begins with no -, or it follows =.
"
}
