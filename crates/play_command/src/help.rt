//! How the program is called.

/// How the program is called.
pub const HELP: &str = "\
usage: vimalorua WORDS..

  check [--script-fonts] SCRIPT FONT..
      reports on standard error what an ASS script and from 1 to 64 fonts, BDF or OpenType, hold,
      and each line that can't be read; --script-fonts: the script's own fonts are used too, behind
      the others
  frame --at MS --size WxH [--storage WxH] [--aspect N/D] [--content X,Y,WxH]
        [--letters script|aspect] [--scale N] [--format ppm|pam|rgba] [--budget BYTES]
        [--script-fonts] SCRIPT FONT..
      writes the picture of a script in from 1 to 64 fonts, as a binary PPM image, to standard output
      --at MS          the instant, in milliseconds from 0 to 4000000000000
      --size WxH       how many columns and rows, each from 1 to 4096
      --storage WxH    those of the video as it is stored, each from 1 to 65536
      --aspect N/D     the width and height of its pixels, each from 1 to 65536
      --content X,Y,WxH   where its picture stands in the frame: left and top from -4096 to 4096
                       (--content=-8,0,1296x720), and its columns and rows
      --letters WORD   script: letters are stretched as all else; aspect: they keep their shape
      --scale N        the size of lines without a place, in thousandths, to 100000
      --format WORD    ppm: on black; pam: a PAM with straight alpha; rgba: its bytes without a head
      --budget BYTES   what each of three caches may keep, from 0 to 1099511627776
  changes --from MS --to MS|--frames N --step MS|--rate N/D --size WxH [--storage ..] [--aspect ..]
          [--content ..] [--letters ..] [--scale N] [--budget BYTES] [--script-fonts] SCRIPT FONT..
      reports on standard error what changes from picture to picture: a line
      't=MS change=C box X1 Y1 X2 Y2', or 'box none', for each instant from --from on, by --step or
      at --rate (24000/1001, or 25 frames a second), before --to or --frames of them; C is 0 for the
      same picture, 1 where something only moved, and 2 for anything else
  write [--later MS] [--earlier MS] SCRIPT
      writes the script again to standard output, with its events so much later and so much earlier
  play --from MS --to MS|--frames N --step MS|--rate N/D --size WxH [--feeders N] [--renderers N]
       [--batch N] [--again N] [--times N] [--ahead N] [--bands N]
       [--format ppm|pam|rgba|y4m [--matrix NAME] [--chroma 420|444]] [--budget BYTES]
       [--mode live|settled] [--script-fonts] SCRIPT FONT..
      writes the pictures of the instants that changes has, one image behind another in a format of
      frame, to standard output, and reports on standard error; from 1 to 8 threads feed the script's
      lines and from 1 to 8 draw, while lines are fed (live) or once all are (settled)
      --format y4m     on black, as one YUV4MPEG2 video
      --matrix NAME    its colours: TV. or PC., for the limited or the full range, and 601, 709, 240M
                       or FCC, as TV.709; or script, for those of the script's line YCbCr Matrix
      --chroma WORD    420: one chroma sample for four pixels; 444: one for each
  play --changed [--crop] --from MS --to MS|--frames N --step MS|--rate N/D --size WxH
       [--format ppm|pam|rgba] [--budget BYTES] [--script-fonts] SCRIPT FONT..
      writes only those of these images that differ from the one before, and reports an index of them:
      a line 'image K place N t=MS box X1 Y1 X2 Y2' for each; --crop: an image is only that box
  selftest [--workers N] SEED EVENTS
      plays a script that a seed generates by 1 to 8 workers, and reports a digest of its images
  help, --version
      show this text, and the version

  check, changes, play and selftest take words on their report. With any of them changes writes each
  line as soon as it is known, and a play whose images nobody reads any more says 'closed: frames'.
      --report WORD    text; json: lines of JSON; none: the exit status alone tells what came
      --report-to FILE the report goes to a file, which is made before any is read
      --progress       a terminal is shown once a second how far the run is; not of check
      --quiet-pipe     of play: it ends with 0 where nobody reads its images any more
      --index FILE     of play --changed without --crop: a list of its images for ffmpeg

Options stand anywhere behind the command, once each, as '--at 0' or '--at=0'. Behind '--' all words
are names. SCRIPT and FONT are names of files, and - is standard input; the file - is ./-. A number
is from 1 to 13 decimal digits; vimalorua(1) has what each may be.

Exit statuses, each but 0 with a line where the report goes, unless that is what failed:
  0 done              4 read fault       7 write fault      11 unwritable
  2 bad words         5 bad script       8 too large
  3 no such file      6 bad font         9 out of memory
";
